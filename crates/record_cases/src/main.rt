// Cases of one record, run by the gate (01 "The month file"): GS1's example and two GLNs of the paper, each refusal of the reader alone and of the writer,
// a net supply of -8,000,000,000 Wh there and back, and a party with its BRP (02, W5). One line for each.
#![tactic(auto)]

use answer::Refused;
use record::{Brp, Flows, Heading, Over, Reading, Record};
use std::io;

// The kinds as the plain entry takes them.
const PARTY: u64 = record::kind::PARTY as u64;

const READING: u64 = record::kind::READING as u64;

const PRICE: u64 = record::kind::PRICE as u64;

const REFIXED_HOUR: u64 = record::kind::REFIXED_HOUR as u64;

const END: u64 = record::kind::END as u64;

const LONG_READING: u64 = record::kind::LONG_READING as u64;

const BRP_PARTY: u64 = record::kind::BRP_PARTY as u64;

fn refused(rt: &impl Print, refused: Refused) -> io::Result<()> {
    let Refused(refusal, place) = refused;
    let number = refusal.number();
    println!(rt; "{number} at {place}")
}

fn signed(rt: &impl Print, z: i64) -> io::Result<()> {
    print!(rt; "{z}")
}

// The weights of a reading over several months.
fn weights(rt: &impl Print, over: Over) -> io::Result<()> {
    match over {
        Over::ThisMonth => Ok(()),
        Over::ManyMonths(before, whole) => print!(rt; " from {before} of {whole}"),
    }
}

// The GLNs of a party that names its BRP: both are handed back as parts of its record.
fn responsible(rt: &impl Print, brp: Brp, part: &[u8]) -> io::Result<()> {
    match brp {
        Brp::Own => Ok(()),
        Brp::Named => {
            print!(rt; " of supplier ")?;
            rt.write_all(record::gln_in(part))?;
            print!(rt; ", BRP ")?;
            rt.write_all(record::brp_gln_in(part))
        }
    }
}

// What the record is that was read from a part, by its kind and one of its fields.
fn kind(rt: &impl Print, r: Record, part: &[u8]) -> io::Result<()> {
    match r {
        Record::Heading(h) => {
            let year = h.year;
            print!(rt; "heading {year}")?;
        }
        Record::Party(brp, share) => {
            print!(rt; "party {share}")?;
            responsible(rt, brp, part)?;
        }
        Record::FixedHour(_, f) => {
            print!(rt; "fixed ")?;
            signed(rt, f.net_wh)?;
        }
        Record::Reading(x) => {
            let e_wh = x.e_wh;
            print!(rt; "reading {e_wh}")?;
            weights(rt, x.over)?;
        }
        Record::Price(_, price_ore) => {
            print!(rt; "price ")?;
            signed(rt, price_ore)?;
        }
        Record::RefixedHour(_, f) => {
            print!(rt; "refixed ")?;
            signed(rt, f.net_wh)?;
        }
        Record::End(count) => {
            print!(rt; "end {count}")?;
        }
    }
    println!(rt)
}

fn gln_case(rt: &impl Print, part: &[u8]) -> io::Result<()> {
    match gln::check(part) {
        Some(n) => println!(rt; "gln {n}"),
        None => println!(rt; "gln none"),
    }
}

fn read_case(rt: &impl Print, part: &[u8]) -> io::Result<()> {
    print!(rt; "read ")?;
    match record_rule::read_alone(part) {
        Ok(r) => kind(rt, r, part),
        Err(x) => refused(rt, x),
    }
}

// What the writer told, and what then stands in the part.
fn written(rt: &impl Print, w: Result<usize, Refused>, part: &[u8]) -> io::Result<()> {
    match w {
        Ok(n) => {
            print!(rt; "{n} bytes, ")?;
            read_case(rt, part)
        }
        Err(x) => refused(rt, x),
    }
}

// Written into a part of 22 bytes: room for all but an hour, a reading over months and a party that names its BRP.
fn write_case(rt: &impl Print, r: Record, gln: &[u8]) -> io::Result<()> {
    print!(rt; "write ")?;
    let mut part = [0u8; 22];
    let w = record_write::write(r, gln, b"", &mut part);
    written(rt, w, &part)
}

// An hour, or a reading over months, written and read back.
fn hour_case(rt: &impl Print, r: Record) -> io::Result<()> {
    print!(rt; "write ")?;
    let mut part = [0u8; 36];
    let w = record_write::write(r, b"", b"", &mut part);
    written(rt, w, &part)
}

// A party that names its BRP, written into a part that is lent and read back.
fn brp_case(
    rt: &impl Print,
    share: u64,
    gln: &[u8],
    brp_gln: &[u8],
    part: &mut [u8],
) -> io::Result<()> {
    print!(rt; "write ")?;
    let w = record_write::write(Record::Party(Brp::Named, share), gln, brp_gln, part);
    written(rt, w, part)
}

fn glns(rt: &impl Print) -> io::Result<()> {
    gln_case(rt, b"6291041500213")?;
    gln_case(rt, b"5790001330552")?;
    gln_case(rt, b"5790000432752")?;
    gln_case(rt, b"5790001330553")?;
    gln_case(rt, b"579000133055")?;
    gln_case(rt, b"57900013305a2")
}

fn reads(rt: &impl Print) -> io::Result<()> {
    read_case(rt, b"")?;
    read_case(rt, b"\x00")?;
    read_case(rt, b"\xff")?;
    read_case(rt, b"\x01\x00\x01\x07\xe9\x0b\x02\xd0\x02")?;
    read_case(rt, b"\x01\x00\x01\x07\xe9\x0b\x02\xd0\x02\x01")?;
    read_case(rt, b"\x01\x00\x01\x07\xe9\x0d\x02\xd0\x02\x01")?;
    read_case(rt, b"\x01\x00\x01\x07\xe9\x0b\x02\xd0\x02\x02")?;
    read_case(rt, b"\x025790001330552\x00\x00\x00\x00\x00\x00\x03\xe8")?;
    read_case(rt, b"\x025790001330553\x00\x00\x00\x00\x00\x00\x03\xe8")?;
    read_case(rt, b"\x025790001330553\x00\x00\x00\x01\x00\x00\x00\x00")
}

fn more_reads(rt: &impl Print) -> io::Result<()> {
    read_case(rt, b"\x04\x3f\x00\x00\x02\xe9\x3b\x9a\xca\x00")?;
    read_case(rt, b"\x04\x40\x00\x00\x02\xe9\x3b\x9a\xca\x00")?;
    read_case(rt, b"\x04\x3f\x00\x00\x02\xea\x3b\x9a\xca\x01")?;
    read_case(rt, b"\x04\x3f\x00\x01\x00\x01\x00\x00\x00\x00")?;
    read_case(rt, b"\x04\x3f\x00\x00\x02\xe9\x3b\x9a\xca\x01")?;
    read_case(
        rt,
        b"\x08\x3f\x00\x00\x02\xe9\x3b\x9a\xca\x00\xff\xff\xff\xff\xff\xff\xff\xff\x00\x00\x00\x00\x00\x00\x00\x00",
    )?;
    read_case(
        rt,
        b"\x08\x3f\x00\x00\x02\xe9\x3b\x9a\xca\x00\x00\x00\x00\x00\x00\x00\x00\x00\x00\x00\x00\x00\x00\x00\x00",
    )?;
    read_case(
        rt,
        b"\x08\x3f\x00\x00\x02\xea\x3b\x9a\xca\x01\x00\x00\x00\x00\x00\x00\x00\x01\x00\x00\x00\x00\x00\x00\x00\x02",
    )?;
    read_case(rt, b"\x05\x02\xe8\xff\xb3\xb4\xc0")?;
    read_case(rt, b"\x05\x02\xe9\xff\xb3\xb4\xc0")?;
    read_case(rt, b"\x05\x02\xe8\xff\xb3\xb4\xbf")?;
    read_case(rt, b"\x07\xff\xff\xff\xff and what follows")
}

// 02, W5: "supplier GLN 13, BRP GLN 13, load share 8".
fn brp_reads(rt: &impl Print) -> io::Result<()> {
    read_case(
        rt,
        b"\x1257900013305525790000432752\x00\x00\x00\x00\x00\x00\x03\xe8",
    )?;
    read_case(
        rt,
        b"\x1257900013305525790000432752\x00\x00\x00\x00\x00\x00\x03",
    )?;
    read_case(
        rt,
        b"\x1257900013305535790000432753\x00\x00\x00\x01\x00\x00\x00\x00",
    )?;
    read_case(
        rt,
        b"\x1257900013305535790000432752\x00\x00\x00\x00\x00\x00\x03\xe8",
    )?;
    read_case(
        rt,
        b"\x1257900013305525790000432753\x00\x00\x00\x00\x00\x00\x03\xe8",
    )?;
    read_case(
        rt,
        b"\x12579000133055257900004327a2\x00\x00\x00\x00\x00\x00\x03\xe8",
    )
}

fn flows(status: u8, net_wh: i64) -> Flows {
    Flows {
        status,
        net_wh,
        production_wh: 0,
        hourly_wh: 0,
        flex_wh: 0,
    }
}

fn long_reading(before: u64, whole: u64) -> Reading {
    Reading {
        party: 63,
        a: 4,
        b: 5,
        e_wh: 7,
        over: Over::ManyMonths(before, whole),
    }
}

fn writes(rt: &impl Print) -> io::Result<()> {
    write_case(rt, Record::Party(Brp::Own, 4000000000), b"5790000432752")?;
    write_case(rt, Record::Party(Brp::Own, 4000000001), b"5790000432753")?;
    write_case(rt, Record::Party(Brp::Own, 0), b"5790000432753")?;
    write_case(rt, Record::Party(Brp::Own, 0), b"579000043275")?;
    write_case(rt, Record::End(4294967295), b"")?;
    write_case(rt, Record::FixedHour(0, flows(1, 0)), b"")?;
    hour_case(rt, Record::FixedHour(744, flows(1, -8000000000)))?;
    hour_case(rt, Record::RefixedHour(744, flows(2, -8000000001)))?;
    hour_case(rt, Record::FixedHour(744, flows(0, 1)))?;
    hour_case(rt, Record::FixedHour(745, flows(1, 0)))
}

fn more_writes(rt: &impl Print) -> io::Result<()> {
    write_case(
        rt,
        Record::Heading(Heading {
            area: 999,
            year: 2099,
            month: 12,
            hours: 745,
            parties: 64,
            carrier: 63,
        }),
        b"",
    )?;
    write_case(
        rt,
        Record::Reading(Reading {
            party: 63,
            a: 5,
            b: 5,
            e_wh: 1000000001,
            over: Over::ThisMonth,
        }),
        b"",
    )?;
    write_case(
        rt,
        Record::Reading(Reading {
            party: 63,
            a: 4,
            b: 5,
            e_wh: 1000000001,
            over: Over::ThisMonth,
        }),
        b"",
    )?;
    write_case(rt, Record::Reading(long_reading(0, 0)), b"")?;
    hour_case(rt, Record::Reading(long_reading(18446744073709551615, 1)))?;
    write_case(rt, Record::Price(0, 5000001), b"")
}

// Room for exactly a party with its BRP, and for one byte less.
fn brp_writes(rt: &impl Print) -> io::Result<()> {
    let mut exact = [0u8; 35];
    brp_case(
        rt,
        4000000000,
        b"5790001330552",
        b"5790000432752",
        &mut exact,
    )?;
    let mut short = [0u8; 34];
    brp_case(
        rt,
        4000000000,
        b"5790001330552",
        b"5790000432752",
        &mut short,
    )?;
    brp_case(
        rt,
        4000000001,
        b"5790001330552",
        b"5790000432753",
        &mut short,
    )?;
    brp_case(rt, 0, b"5790001330553", b"5790000432752", &mut exact)?;
    brp_case(rt, 0, b"5790001330552", b"5790000432753", &mut short)?;
    brp_case(rt, 0, b"5790001330552", b"579000043275", &mut exact)
}

fn plain_case(rt: &impl Print, kind: u64, numbers: &[i64]) -> io::Result<()> {
    print!(rt; "plain ")?;
    let mut part = [0u8; 36];
    let w = record_service::write_plain(
        kind,
        numbers,
        b"6291041500213",
        b"5790000432752",
        &mut part,
    );
    written(rt, w, &part)
}

fn plains(rt: &impl Print) -> io::Result<()> {
    plain_case(rt, 255, &[0i64; 1])?;
    plain_case(rt, PARTY, &[1000i64])?;
    plain_case(rt, PARTY, &[1000i64, 0])?;
    plain_case(rt, PARTY, &[-1i64])?;
    plain_case(rt, REFIXED_HOUR, &[744i64, 2, -8000000000, 0, 0, 0])?;
    plain_case(rt, READING, &[63i64, 65536, 65537, 0])?;
    plain_case(rt, READING, &[63i64, 0, 1, 4294967296])?;
    plain_case(rt, PRICE, &[0i64, -5000000])?;
    plain_case(rt, END, &[4294967296i64])?;
    plain_case(rt, LONG_READING, &[63i64, 0, 1, 4294967296, 0, 0])?;
    plain_case(rt, LONG_READING, &[63i64, 0, 1, 7, -1, 0])?;
    plain_case(rt, LONG_READING, &[63i64, 0, 1, 7, 9223372036854775807, 0])?;
    plain_case(rt, BRP_PARTY, &[1000i64])?;
    plain_case(rt, BRP_PARTY, &[1000i64, 0])?;
    plain_case(rt, BRP_PARTY, &[-1i64])
}

fn main(rt: HostRuntime) -> io::Result<()> {
    glns(&rt)?;
    reads(&rt)?;
    more_reads(&rt)?;
    brp_reads(&rt)?;
    writes(&rt)?;
    more_writes(&rt)?;
    brp_writes(&rt)?;
    plains(&rt)
}
