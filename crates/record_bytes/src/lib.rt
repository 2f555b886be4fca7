// The bytes of each kind of record (01 "The month file"), at the start of a part: its kind and then its fields, each in its width. `record_write` has the
// writer, which judges a record and the part before they are written.
#![tactic(auto)]

mod fields;

ghost use Rattle.std.specs.Prelude.{◌≡◌, ◌∷◌, ◌≤◌, length};
ghost use Rattle.std.proofs.lemmas.List.Edits.{sets};
ghost use Rattle.std.specs.Int.Signed.{mag};
ghost use Rattle.record.specs.Record.{heading_of, flows_of};
ghost use Rattle.record_bytes.specs.EachKind.{hour_bytes, party_with, reading_over};
ghost use Rattle.rules.specs.Limits.{gln_digits};
ghost use Rattle.rules.specs.Record.{heading, own_brp, named_brp, party, this_month, many_months, reading, price, end, record_bytes};

use record::{Flows, Heading, Reading, kind};

// The kinds as the numbers that are written.
const HEADING: u64 = kind::HEADING as u64;

const PARTY: u64 = kind::PARTY as u64;

const READING: u64 = kind::READING as u64;

const PRICE: u64 = kind::PRICE as u64;

const END: u64 = kind::END as u64;

const LONG_READING: u64 = kind::LONG_READING as u64;

const BRP_PARTY: u64 = kind::BRP_PARTY as u64;

// The largest numbers of 4 and of 8 bytes, by which two's complement is written.
const TOP_4: u64 = 4294967295;

const TOP_8: u64 = 18446744073709551615;

// A heading, and so each kind below: the kind, then the fields.
pub fn put_heading(h: Heading, out: &mut [u8])
    requires { 10 ≤ length out.old }
    ensures { out.new ≡ sets out.old 0 (record_bytes (heading (heading_of h))) }
{
    let widths = [1usize, 2, 2, 1, 2, 1, 1];
    let values = [
        HEADING,
        h.area as u64,
        h.year as u64,
        h.month as u64,
        h.hours as u64,
        h.parties as u64,
        h.carrier as u64,
    ];
    fields::put_all(out, &widths, &values);
}

// A party that is its own BRP.
pub fn put_party(gln: &[u8], share: u64, out: &mut [u8])
    requires { (length gln.now ≡ gln_digits) × (22 ≤ length out.old) }
    ensures { out.new ≡ sets out.old 0 (record_bytes (party (party_with gln.now own_brp share))) }
{
    fields::put_number(out, 0, 1, PARTY);
    fields::put_bytes(out, 1, gln);
    fields::put_number(out, 14, 8, share);
}

// A party that names its BRP: "supplier GLN 13, BRP GLN 13, load share 8".
pub fn put_brp_party(gln: &[u8], brp_gln: &[u8], share: u64, out: &mut [u8])
    requires { (length gln.now ≡ gln_digits) × (length brp_gln.now ≡ gln_digits) × (35 ≤ length out.old) }
    ensures { out.new ≡ sets out.old 0 (record_bytes (party (party_with gln.now (named_brp brp_gln.now) share))) }
{
    fields::put_number(out, 0, 1, BRP_PARTY);
    fields::put_bytes(out, 1, gln);
    fields::put_bytes(out, 14, brp_gln);
    fields::put_number(out, 27, 8, share);
}

pub fn put_hour(sort: u8, hour: u16, f: Flows, out: &mut [u8])
    requires { 36 ≤ length out.old }
    ensures { out.new ≡ sets out.old 0 (sort ∷ hour_bytes hour (flows_of f)) }
{
    let widths = [1usize, 2, 1, 8, 8, 8, 8];
    let values = [
        sort as u64,
        hour as u64,
        f.status as u64,
        fields::unsigned(f.net_wh, TOP_8),
        f.production_wh,
        f.hourly_wh,
        f.flex_wh,
    ];
    fields::put_all(out, &widths, &values);
}

pub fn put_month_reading(x: Reading, out: &mut [u8])
    requires { 10 ≤ length out.old }
    ensures { out.new ≡ sets out.old 0 (record_bytes (reading (reading_over x this_month))) }
{
    let widths = [1usize, 1, 2, 2, 4];
    let values = [
        READING,
        x.party as u64,
        x.a as u64,
        x.b as u64,
        x.e_wh as u64,
    ];
    fields::put_all(out, &widths, &values);
}

pub fn put_long_reading(x: Reading, before: u64, whole: u64, out: &mut [u8])
    requires { 26 ≤ length out.old }
    ensures { out.new ≡ sets out.old 0 (record_bytes (reading (reading_over x (many_months before whole)))) }
{
    let widths = [1usize, 1, 2, 2, 4, 8, 8];
    let values = [
        LONG_READING,
        x.party as u64,
        x.a as u64,
        x.b as u64,
        x.e_wh as u64,
        before,
        whole,
    ];
    fields::put_all(out, &widths, &values);
}

pub fn put_price(hour: u16, price_ore: i64, out: &mut [u8])
    requires { (mag price_ore ≤ 4294967295) × (7 ≤ length out.old) }
    ensures { out.new ≡ sets out.old 0 (record_bytes (price hour price_ore)) }
{
    let widths = [1usize, 2, 4];
    let values = [PRICE, hour as u64, fields::unsigned(price_ore, TOP_4)];
    fields::put_all(out, &widths, &values);
}

pub fn put_end(count: u32, out: &mut [u8])
    requires { 5 ≤ length out.old }
    ensures { out.new ≡ sets out.old 0 (record_bytes (end count)) }
{
    let widths = [1usize, 4];
    let values = [END, count as u64];
    fields::put_all(out, &widths, &values);
}
