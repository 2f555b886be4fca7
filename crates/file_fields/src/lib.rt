// What stands at a place of an accepted month file (01 "The month file"): an hour's flows, a price, a reading, a load share, a GLN, a BRP's GLN. Each function reads the one
// record that stands there by its kind's own function of `record`: an accepted file has that kind there. They ask the sections that `file_sections::read`
// gave for this file, and a place within them; to refuse by themselves they would have to read the file again. A reading is of one of two lengths, so it is
// asked for by the byte where it stands; the parties of a file all have the same length, which the sections tell.
#![tactic(auto)]

ghost use Rattle.std.specs.Prelude.{◌≡◌, ◌+◌, ◌*◌, ◌≤◌, length, drop};
ghost use Rattle.file_fields.specs.Fields.{FixedAsked, RefixedAsked, PriceAsked, ReadingAsked, PartyAsked, FixedIs, RefixedIs, PriceIs, ReadingIs, ShareIs, GlnIs, BrpGlnIs, BrpNumberIs};

use file_sections::Sections;
use record::{Flows, Reading};

// The file from the k-th record of a section on, whose records have so many bytes.
fn from_record<'a>(file: &'a [u8], section: usize, size: usize, k: usize) -> &'a [u8]
    requires { section + size * k + size ≤ length file.now }
    ensures { result.now ≡ drop (section + size * k) file.now }
{
    let at = section + size * k;
    &file[at..]
}

// The status and flows of a fixed hour.
pub fn fixed_flows(file: &[u8], s: Sections, t: usize) -> Flows
    requires { FixedAsked file.now s t }
    ensures { FixedIs file.now t result }
{
    record::flows_in(from_record(file, s.fixed_at, record::HOUR_SIZE, t))
}

// The status and flows of a refixed hour.
pub fn refixed_flows(file: &[u8], s: Sections, t: usize) -> Flows
    requires { RefixedAsked file.now s t }
    ensures { RefixedIs file.now t result }
{
    record::flows_in(from_record(file, s.refixed_at, record::HOUR_SIZE, t))
}

// The price of an hour, in øre per MWh.
pub fn price_ore(file: &[u8], s: Sections, t: usize) -> i64
    requires { PriceAsked file.now s t }
    ensures { PriceIs file.now t result }
{
    record::price_in(from_record(file, s.prices_at, record::PRICE_SIZE, t))
}

// The reading that stands at a byte, in this month or over several.
pub fn reading(file: &[u8], at: usize) -> Reading
    requires { ReadingAsked file.now at }
    ensures { ReadingIs file.now at result }
{
    let part = &file[at..];
    if part[0] == record::kind::LONG_READING {
        return record::long_reading_in(part);
    }
    record::reading_in(part)
}

// A party's load share, in kWh per year.
pub fn load_share(file: &[u8], s: Sections, i: usize) -> u64
    requires { PartyAsked file.now s i }
    ensures { ShareIs file.now i result }
{
    let part = from_record(file, s.parties_at, s.party_size, i);
    if part[0] == record::kind::BRP_PARTY {
        return record::brp_share_in(part);
    }
    record::share_in(part)
}

// A party's thirteen digits, as the part of the file that holds them: they stand after the kind.
pub fn gln_of<'a>(file: &'a [u8], s: Sections, i: usize) -> &'a [u8]
    requires { PartyAsked file.now s i }
    ensures { GlnIs file.now i result.now }
{
    record::gln_in(from_record(file, s.parties_at, s.party_size, i))
}

// The thirteen digits of a party's BRP, as the part of the file that holds them: in a 12 record after its own, in a 02 record its own.
pub fn brp_gln_of<'a>(file: &'a [u8], s: Sections, i: usize) -> &'a [u8]
    requires { PartyAsked file.now s i }
    ensures { BrpGlnIs file.now i result.now }
{
    let part = from_record(file, s.parties_at, s.party_size, i);
    if part[0] == record::kind::BRP_PARTY {
        return record::brp_gln_in(part);
    }
    record::gln_in(part)
}

// A party's BRP, by the number that its thirteen digits are.
pub fn brp_number(file: &[u8], s: Sections, i: usize) -> u64
    requires { PartyAsked file.now s i }
    ensures { BrpNumberIs file.now i result }
{
    gln::check(brp_gln_of(file, s, i)).unwrap_or(0)
}
