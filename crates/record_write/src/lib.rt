// The record writer (01 "The month file"): "The record writer takes one record's fields and a lent part". A record is judged by `record_rule`, and written in
// the bytes of its kind by `record_bytes`.
#![tactic(auto)]

ghost use Rattle.std.specs.Prelude.{◌≡◌, ◌+◌, ◌≤◌, length};
ghost use Rattle.std.proofs.lemmas.List.Edits.{sets};
ghost use Rattle.record.specs.Record.{record_of, over_of, reading_of, glns};
ghost use Rattle.record_write.specs.Writing.{kind_of, Writable, RoomPromised, Promised};
ghost use Rattle.rules.specs.Record.{reading, body_length, reading_kind_of, record_bytes, alone, checks};
ghost use Rattle.rules.specs.Refusals.{accepted, first};

use answer::{Refusal, Refused};
use record::{Brp, MOST_HOURS, MOST_PARTIES, Over, Reading, Record, kind};

// A reading's kind byte, by what it lies over.
fn reading_kind(x: Reading) -> u8
    ensures { result ≡ reading_kind_of (over_of x.over) }
{
    let over = x.over;
    match over {
        Over::ThisMonth => kind::READING,
        Over::ManyMonths(_, _) => kind::LONG_READING,
    }
}

// A record's kind byte.
fn kind_of(r: Record) -> u8
    ensures { result ≡ kind_of r }
{
    match r {
        Record::Heading(_) => kind::HEADING,
        Record::Party(brp, _) => record::party_kind(brp),
        Record::FixedHour(_, _) => kind::FIXED_HOUR,
        Record::Reading(x) => reading_kind(x),
        Record::Price(_, _) => kind::PRICE,
        Record::RefixedHour(_, _) => kind::REFIXED_HOUR,
        Record::End(_) => kind::END,
    }
}

// A party of either kind.
fn put_party_record(brp: Brp, gln: &[u8], brp_gln: &[u8], share: u64, out: &mut [u8])
    requires { Writable (glns gln.now brp_gln.now) (Record.Party brp share) out.old }
    ensures { out.new ≡ sets out.old 0 (record_bytes (record_of (glns gln.now brp_gln.now) (Record.Party brp share))) }
{
    match brp {
        Brp::Own => record_bytes::put_party(gln, share, out),
        Brp::Named => record_bytes::put_brp_party(gln, brp_gln, share, out),
    }
}

// A reading of either kind.
fn put_reading(x: Reading, out: &mut [u8])
    requires { 1 + body_length (reading_kind_of (over_of x.over)) ≤ length out.old }
    ensures { out.new ≡ sets out.old 0 (record_bytes (reading (reading_of x))) }
{
    let over = x.over;
    match over {
        Over::ThisMonth => record_bytes::put_month_reading(x, out),
        Over::ManyMonths(before, whole) => record_bytes::put_long_reading(x, before, whole, out),
    }
}

// A record that has no fault, at the start of a part that has room for it.
fn encode(r: Record, gln: &[u8], brp_gln: &[u8], out: &mut [u8])
    requires { Writable (glns gln.now brp_gln.now) r out.old }
    ensures { out.new ≡ sets out.old 0 (record_bytes (record_of (glns gln.now brp_gln.now) r)) }
{
    match r {
        Record::Heading(h) => record_bytes::put_heading(h, out),
        Record::Party(brp, share) => put_party_record(brp, gln, brp_gln, share, out),
        Record::FixedHour(hour, f) => record_bytes::put_hour(kind::FIXED_HOUR, hour, f, out),
        Record::Reading(x) => put_reading(x, out),
        Record::Price(hour, price_ore) => record_bytes::put_price(hour, price_ore, out),
        Record::RefixedHour(hour, f) => record_bytes::put_hour(kind::REFIXED_HOUR, hour, f, out),
        Record::End(count) => record_bytes::put_end(count, out),
    }
}

// 16, "record writer: too short", of a record that has no fault; else "kind and body at its start, nothing further on touched, and the number of bytes".
fn put_record(r: Record, gln: &[u8], brp_gln: &[u8], out: &mut [u8]) -> Result<usize, Refused>
    requires { first (checks alone (record_of (glns gln.now brp_gln.now) r)) ≡ accepted }
    ensures { RoomPromised r gln.now brp_gln.now out.old result out.new }
{
    let n = 1 + record::body_length(kind_of(r));
    if out.len() < n {
        return Err(Refused(Refusal::WrongLength, 0));
    }
    encode(r, gln, brp_gln, out);
    Ok(n)
}

// "The record writer takes one record's fields and a lent part": 4, 5, 11, 12, then 16. The bytes of a party's GLN and of its BRP's stand beside it; of another
// kind they are not looked at.
pub fn write(r: Record, gln: &[u8], brp_gln: &[u8], out: &mut [u8]) -> Result<usize, Refused>
    ensures { Promised r gln.now brp_gln.now out.old result out.new }
{
    record_rule::fault(r, gln, brp_gln, MOST_HOURS, MOST_PARTIES, 0)?;
    put_record(r, gln, brp_gln, out)
}
