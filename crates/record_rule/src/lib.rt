// The rule of a record's fields (01 "Numbers that bound it"), and one record read alone by it (01 "The month file"): "One record can also be read alone, by
// 2, 1 and then the same rules". `record` has the records and their fields read, `record_write` their writing by the same rule.
#![tactic(auto)]

mod rule;

ghost use Rattle.record_rule.specs.Promised.{FaultPromised, PartFaultPromised, ReadAlonePromised};

use answer::{Refusal, Refused};
use record::{MOST_HOURS, MOST_PARTIES, Record};

// THE RULE OF A RECORD'S FIELDS, 4, 5, 11, 12 in that order, kind by kind, for a file of so many hours and parties, at a place. The bytes of a party's GLN
// and of its BRP's stand beside it; of another kind they are not looked at.
pub fn fault(
    r: Record,
    gln: &[u8],
    brp_gln: &[u8],
    hours: u16,
    parties: u8,
    place: usize,
) -> Result<(), Refused>
    ensures { FaultPromised r gln.now brp_gln.now hours parties place result }
{
    match r {
        Record::Heading(h) => rule::unless(rule::heading_in_range(h), Refusal::OutOfRange, place),
        Record::Party(brp, share) => rule::party_fault(brp, share, gln, brp_gln, place),
        Record::FixedHour(hour, f) => rule::unless(
            rule::hour_in_range(hours, hour, f),
            Refusal::OutOfRange,
            place,
        ),
        Record::Reading(x) => rule::reading_fault(x, hours, parties, place),
        Record::Price(hour, p) => rule::unless(
            rule::price_in_range(hours, hour, p),
            Refusal::OutOfRange,
            place,
        ),
        Record::RefixedHour(hour, f) => rule::unless(
            rule::hour_in_range(hours, hour, f),
            Refusal::OutOfRange,
            place,
        ),
        Record::End(_) => Ok(()),
    }
}

// The same of the record that stands at the start of a part: a party's GLNs are looked for where they stand, and of another kind nothing is.
pub fn fault_of_part(
    r: Record,
    part: &[u8],
    hours: u16,
    parties: u8,
    place: usize,
) -> Result<(), Refused>
    ensures { PartFaultPromised r part.now hours parties place result }
{
    match r {
        Record::Party(brp, share) => {
            rule::party_fault(
                brp,
                share,
                record::gln_in(part),
                record::brp_gln_in(part),
                place,
            )
        }
        _ => fault(r, b"", b"", hours, parties, place),
    }
}

// "One record can also be read alone, by 2, 1 and then the same rules (an empty part is 1); bytes after it are not looked at."
pub fn read_alone(part: &[u8]) -> Result<Record, Refused>
    ensures { ReadAlonePromised part.now result }
{
    if part.len() < 1 {
        return Err(Refused(Refusal::FileFault, 0));
    }
    let body = record::body_length(part[0]);
    if body < 1 {
        return Err(Refused(Refusal::UnknownKind, 0));
    }
    if part.len() - 1 < body {
        return Err(Refused(Refusal::FileFault, 0));
    }
    let r = record::decode(part);
    fault_of_part(r, part, MOST_HOURS, MOST_PARTIES, 0)?;
    Ok(r)
}
