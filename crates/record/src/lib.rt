// One record of the month file (01 "The month file"): its kinds and body lengths, and its fields read. "One byte of kind, then a body. Numbers are
// big-endian; net supply and price are two's complement." `record_rule` has the rule of its fields, `record_write` its writing.
#![tactic(auto)]

mod fields;
pub mod kind;
mod table;

ghost use Rattle.std.specs.Prelude.{◌≡◌, ◌+◌, ◌≤◌, length, take, drop};
ghost use Rattle.record.specs.Record.{record_of, heading_of, flows_of, kind_of_brp, over_of, reading_of, glns_in, flows_at, record_as, Whole};
ghost use Rattle.record.specs.Promised.{BodyLengthPromised};
ghost use Rattle.rules.specs.Record.{heading_kind, reading_kind, long_reading_kind, reading_kind_of, heading, reading, body_length, number_onto, signed, record_at};

// "01 heading: area 2, year 2, month 1, hours H 2, parties P 1, loss carrier 1"
#[derive(Clone, Copy)]
pub struct Heading {
    pub area: u16,
    pub year: u16,
    pub month: u8,
    pub hours: u16,
    pub parties: u8,
    pub carrier: u8,
}

// "status 1, net supply 8, production 8, hourly 8, flex 8", all in Wh
#[derive(Clone, Copy)]
pub struct Flows {
    pub status: u8,
    pub net_wh: i64,
    pub production_wh: u64,
    pub hourly_wh: u64,
    pub flex_wh: u64,
}

// Who is balance responsible for a party (02, W5): the party itself, or another that the record names by its GLN.
#[derive(Clone, Copy)]
pub enum Brp {
    Own,
    Named,
}

// What a reading's E lies over: this month, or several months (02, W3: "weight before this month 8, weight of the whole reading 8").
#[derive(Clone, Copy)]
pub enum Over {
    ThisMonth,
    ManyMonths(u64, u64),
}

// "04 reading: party 1, a 2, b 2, E 4", and W3's 08: one type for both
#[derive(Clone, Copy)]
pub struct Reading {
    pub party: u8,
    pub a: u16,
    pub b: u16,
    pub e_wh: u32,
    pub over: Over,
}

// A record by kind. A party's GLN and its BRP's stand beside it, as parts of the file: here is whether it names a BRP, and its load share in kWh.
#[derive(Clone, Copy)]
pub enum Record {
    Heading(Heading),
    Party(Brp, u64),
    FixedHour(u16, Flows),
    Reading(Reading),
    Price(u16, i64),
    RefixedHour(u16, Flows),
    End(u32),
}

// How many bytes a record of each kind has, its kind byte and its body, from the one table of body lengths.
pub const HEADING_SIZE: usize = 1 + table::BODY[kind::HEADING as usize] as usize;

pub const PARTY_SIZE: usize = 1 + table::BODY[kind::PARTY as usize] as usize;

pub const BRP_PARTY_SIZE: usize = 1 + table::BODY[kind::BRP_PARTY as usize] as usize;

pub const HOUR_SIZE: usize = 1 + table::BODY[kind::FIXED_HOUR as usize] as usize;

pub const READING_SIZE: usize = 1 + table::BODY[kind::READING as usize] as usize;

pub const LONG_READING_SIZE: usize = 1 + table::BODY[kind::LONG_READING as usize] as usize;

pub const PRICE_SIZE: usize = 1 + table::BODY[kind::PRICE as usize] as usize;

pub const END_SIZE: usize = 1 + table::BODY[kind::END as usize] as usize;

// "an hour above 744 .. b above 745" and "a reading's party above 63": the bounds of a record alone are the most hours and parties of a file.
pub const MOST_HOURS: u16 = limits::MOST_HOURS as u16;

pub const MOST_PARTIES: u8 = limits::MOST_PARTIES as u8;

// "The body lengths, by kind, are these", and 0 for an unknown kind: reader and writer have them from one table.
pub fn body_length(kind: u8) -> usize
    ensures { BodyLengthPromised kind result }
{
    let k = kind as usize;
    table::BODY[k] as usize
}

// The fields of a record that stands whole at the start of a part, kind by kind.
fn heading_in(part: &[u8]) -> Heading
    requires { 10 ≤ length part.now }
    ensures { heading (heading_of result) ≡ record_as heading_kind part.now }
{
    Heading {
        area: fields::u16_at(part, 1),
        year: fields::u16_at(part, 3),
        month: fields::u8_at(part, 5),
        hours: fields::u16_at(part, 6),
        parties: fields::u8_at(part, 8),
        carrier: fields::u8_at(part, 9),
    }
}

pub fn flows_in(part: &[u8]) -> Flows
    requires { 36 ≤ length part.now }
    ensures { flows_of result ≡ flows_at part.now }
{
    Flows {
        status: fields::u8_at(part, 3),
        net_wh: fields::i64_at(part, 4),
        production_wh: fields::u64_at(part, 12),
        hourly_wh: fields::u64_at(part, 20),
        flex_wh: fields::u64_at(part, 28),
    }
}

pub fn reading_in(part: &[u8]) -> Reading
    requires { 10 ≤ length part.now }
    ensures { reading (reading_of result) ≡ record_as reading_kind part.now }
{
    Reading {
        party: fields::u8_at(part, 1),
        a: fields::u16_at(part, 2),
        b: fields::u16_at(part, 4),
        e_wh: fields::u32_at(part, 6),
        over: Over::ThisMonth,
    }
}

pub fn long_reading_in(part: &[u8]) -> Reading
    requires { 26 ≤ length part.now }
    ensures { reading (reading_of result) ≡ record_as long_reading_kind part.now }
{
    let before = fields::u64_at(part, 10);
    let whole = fields::u64_at(part, 18);
    Reading {
        party: fields::u8_at(part, 1),
        a: fields::u16_at(part, 2),
        b: fields::u16_at(part, 4),
        e_wh: fields::u32_at(part, 6),
        over: Over::ManyMonths(before, whole),
    }
}

// How many bytes a reading has with its kind byte.
pub fn reading_size(r: Reading) -> usize
    ensures { result ≡ 1 + body_length (reading_kind_of (over_of r.over)) }
{
    let over = r.over;
    match over {
        Over::ThisMonth => READING_SIZE,
        Over::ManyMonths(_, _) => LONG_READING_SIZE,
    }
}

pub fn price_in(part: &[u8]) -> i64
    requires { 7 ≤ length part.now }
    ensures { result ≡ signed 4 (number_onto 0 (take 4 (drop 3 part.now))) }
{
    fields::i32_at(part, 3) as i64
}

// A party's load share: in a 02 record after its GLN, in a 12 record after its BRP's.
pub fn share_in(part: &[u8]) -> u64
    requires { 22 ≤ length part.now }
    ensures { result ≡ number_onto 0 (take 8 (drop 14 part.now)) }
{
    fields::u64_at(part, 14)
}

pub fn brp_share_in(part: &[u8]) -> u64
    requires { 35 ≤ length part.now }
    ensures { result ≡ number_onto 0 (take 8 (drop 27 part.now)) }
{
    fields::u64_at(part, 27)
}

// A party's kind byte, by whether it names a BRP.
pub fn party_kind(brp: Brp) -> u8
    ensures { result ≡ kind_of_brp brp }
{
    match brp {
        Brp::Own => kind::PARTY,
        Brp::Named => kind::BRP_PARTY,
    }
}

// "supplier GLN 13, BRP GLN 13": a party's thirteen digits, as the part of the record that holds them, and the thirteen after them, which are its BRP's in a 12.
pub fn gln_in<'a>(part: &'a [u8]) -> &'a [u8]
    ensures { result.now ≡ (glns_in part.now).gln }
{
    gln::part_at(part, 1)
}

pub fn brp_gln_in<'a>(part: &'a [u8]) -> &'a [u8]
    ensures { result.now ≡ (glns_in part.now).brp_gln }
{
    gln::part_at(part, 14)
}

// The record that stands whole at the start of a part; the bytes of a party's GLNs stand after its kind.
pub fn decode(part: &[u8]) -> Record
    requires { Whole part.now }
    ensures { record_of (glns_in part.now) result ≡ record_at part.now }
{
    let first = part[0];
    match first {
        kind::HEADING => Record::Heading(heading_in(part)),
        kind::PARTY => Record::Party(Brp::Own, share_in(part)),
        kind::FIXED_HOUR => Record::FixedHour(fields::u16_at(part, 1), flows_in(part)),
        kind::READING => Record::Reading(reading_in(part)),
        kind::PRICE => Record::Price(fields::u16_at(part, 1), price_in(part)),
        kind::REFIXED_HOUR => Record::RefixedHour(fields::u16_at(part, 1), flows_in(part)),
        kind::LONG_READING => Record::Reading(long_reading_in(part)),
        kind::BRP_PARTY => Record::Party(Brp::Named, brp_share_in(part)),
        _ => Record::End(fields::u32_at(part, 1)),
    }
}
