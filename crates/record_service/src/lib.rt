// The record writer with the kind as a number and the fields as a list of numbers (01 "The month file", "The record writer"), for tests: `record_cases` calls it.
#![tactic(auto)]

ghost use Rattle.std.specs.Prelude.{◌≡◌, leb, nat_abs, ◌≤◌, ◌<◌, length, true};
ghost use Rattle.record_service.specs.Held.{field_count, signed_place, signs_from, fields_held, list_right, held, held_heading, held_flows, held_weights, held_reading, held_record};
ghost use Rattle.record_service.specs.Plain.{Promised};
ghost use Rattle.rules.specs.Record.{known};

use answer::{Refusal, Refused};
use record::{Brp, Flows, Heading, Over, Reading, Record, kind};

// Where no number of a kind may be negative: past the last place of the longest list.
const NOWHERE: usize = 6;

// How many numbers a kind has: one for each field, but none for a party's GLN or its BRP's, which stand beside them.
fn field_count(sort: u8) -> usize
    requires { known sort ≡ true }
    ensures { result ≡ field_count sort }
{
    match sort {
        kind::HEADING => 6,
        kind::PARTY => 1,
        kind::FIXED_HOUR => 6,
        kind::READING => 4,
        kind::PRICE => 2,
        kind::REFIXED_HOUR => 6,
        kind::LONG_READING => 6,
        kind::BRP_PARTY => 1,
        _ => 1,
    }
}

// The place of the number that may be negative: an hour's net supply, and the price.
fn signed_place(sort: u8) -> usize
    ensures { result ≡ signed_place sort }
{
    match sort {
        kind::FIXED_HOUR => 2,
        kind::REFIXED_HOUR => 2,
        kind::PRICE => 1,
        _ => NOWHERE,
    }
}

// No number is negative but the one that may be.
fn signs_right(numbers: &[i64], signed: usize) -> bool
    ensures { result ≡ signs_from signed 0 numbers.now }
{
    for (i, number) in numbers.iter().enumerate() {
        let right = (i == signed) | (0 <= *number);
        if !right {
            return false;
        }
    }
    true
}

// An end count of four bytes.
fn not_above_end(z: i64) -> bool
    ensures { result ≡ leb (nat_abs z) 4294967295 }
{
    z.unsigned_abs() <= u32::MAX as u64
}

// The number at a place, or the nearest one that its field can hold.
fn held_at(numbers: &[i64], k: usize, most: u64) -> u64
    requires { k < length numbers.now }
    ensures { (result ≡ held most numbers.now k) × (result ≤ most) }
{
    let z = numbers[k];
    if 0 <= z {
        let n = z as u64;
        if n <= most {
            return n;
        }
        return most;
    }
    0
}

fn u8_of(numbers: &[i64], k: usize) -> u8
    requires { k < length numbers.now }
    ensures { result ≡ held 255 numbers.now k }
{
    held_at(numbers, k, 255) as u8
}

fn u16_of(numbers: &[i64], k: usize) -> u16
    requires { k < length numbers.now }
    ensures { result ≡ held 65535 numbers.now k }
{
    held_at(numbers, k, 65535) as u16
}

fn u32_of(numbers: &[i64], k: usize) -> u32
    requires { k < length numbers.now }
    ensures { result ≡ held 4294967295 numbers.now k }
{
    held_at(numbers, k, 4294967295) as u32
}

fn u64_of(numbers: &[i64], k: usize) -> u64
    requires { k < length numbers.now }
    ensures { result ≡ held 18446744073709551615 numbers.now k }
{
    held_at(numbers, k, 18446744073709551615)
}

fn heading_of(numbers: &[i64]) -> Heading
    requires { 6 ≤ length numbers.now }
    ensures { result ≡ held_heading numbers.now }
{
    Heading {
        area: u16_of(numbers, 0),
        year: u16_of(numbers, 1),
        month: u8_of(numbers, 2),
        hours: u16_of(numbers, 3),
        parties: u8_of(numbers, 4),
        carrier: u8_of(numbers, 5),
    }
}

fn flows_of(numbers: &[i64]) -> Flows
    requires { 6 ≤ length numbers.now }
    ensures { result ≡ held_flows numbers.now }
{
    Flows {
        status: u8_of(numbers, 1),
        net_wh: numbers[2],
        production_wh: u64_of(numbers, 3),
        hourly_wh: u64_of(numbers, 4),
        flex_wh: u64_of(numbers, 5),
    }
}

fn reading_of(numbers: &[i64], over: Over) -> Reading
    requires { 4 ≤ length numbers.now }
    ensures { result ≡ held_reading numbers.now over }
{
    Reading {
        party: u8_of(numbers, 0),
        a: u16_of(numbers, 1),
        b: u16_of(numbers, 2),
        e_wh: u32_of(numbers, 3),
        over: over,
    }
}

fn weights_of(numbers: &[i64]) -> Over
    requires { 6 ≤ length numbers.now }
    ensures { result ≡ held_weights numbers.now }
{
    Over::ManyMonths(u64_of(numbers, 4), u64_of(numbers, 5))
}

// The record of a kind and as many numbers as it has.
fn record_of(sort: u8, numbers: &[i64]) -> Record
    requires { (known sort ≡ true) × (length numbers.now ≡ field_count sort) }
    ensures { result ≡ held_record sort numbers.now }
{
    match sort {
        kind::HEADING => Record::Heading(heading_of(numbers)),
        kind::PARTY => Record::Party(Brp::Own, u64_of(numbers, 0)),
        kind::FIXED_HOUR => Record::FixedHour(u16_of(numbers, 0), flows_of(numbers)),
        kind::READING => Record::Reading(reading_of(numbers, Over::ThisMonth)),
        kind::PRICE => Record::Price(u16_of(numbers, 0), numbers[1]),
        kind::REFIXED_HOUR => Record::RefixedHour(u16_of(numbers, 0), flows_of(numbers)),
        kind::LONG_READING => Record::Reading(reading_of(numbers, weights_of(numbers))),
        kind::BRP_PARTY => Record::Party(Brp::Named, u64_of(numbers, 0)),
        _ => Record::End(u32_of(numbers, 0)),
    }
}

// Every number of 64 bits has room in the eight bytes of a weight ("The record writer takes any weights.").
fn in_eight_bytes(z: i64) -> bool
    ensures { result ≡ leb (nat_abs z) 18446744073709551615 }
{
    true
}

// An end count, and a weight, has room in its bytes. (Every other field has a rule of its own.)
fn fields_hold(sort: u8, numbers: &[i64]) -> bool
    requires { length numbers.now ≡ field_count sort }
    ensures { result ≡ fields_held sort numbers.now }
{
    match sort {
        kind::END => not_above_end(numbers[0]),
        kind::LONG_READING => in_eight_bytes(numbers[4]) & in_eight_bytes(numbers[5]),
        _ => true,
    }
}

// 4 of the list: another length, a negative number in an unsigned field, an end count or a weight beyond its bytes.
fn list_right(sort: u8, numbers: &[i64]) -> bool
    requires { known sort ≡ true }
    ensures { result ≡ list_right sort numbers.now }
{
    if numbers.len() != field_count(sort) {
        return false;
    }
    if !signs_right(numbers, signed_place(sort)) {
        return false;
    }
    fields_hold(sort, numbers)
}

// The record writer on plain numbers: 2 first; then 4 where the list has another length than
// the kind has fields, a number is negative in an unsigned field, or an end count or a weight is beyond its bytes; then as the writer.
pub fn write_plain(
    kind: u64,
    numbers: &[i64],
    gln: &[u8],
    brp_gln: &[u8],
    out: &mut [u8],
) -> Result<usize, Refused>
    ensures { Promised kind numbers.now gln.now brp_gln.now out.old result out.new }
{
    if 255 < kind {
        return Err(Refused(Refusal::UnknownKind, 0));
    }
    let sort = kind as u8;
    if record::body_length(sort) < 1 {
        return Err(Refused(Refusal::UnknownKind, 0));
    }
    if !list_right(sort, numbers) {
        return Err(Refused(Refusal::OutOfRange, 0));
    }
    let r = record_of(sort, numbers);
    record_write::write(r, gln, brp_gln, out)
}
