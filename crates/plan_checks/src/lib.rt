// What the planner of a reading over months refuses of what is handed to it (02, W3): the lists by their lengths and ranges (4), the span (11), E (12) and the
// curves (10), in the order of `handed_checks` of the rules; 13 comes after them (`plan`). And of each month the reading's part, which the records are made of.
#![tactic(auto)]

ghost use Rattle.std.specs.Prelude.{◌&&◌, [], ◌≡◌, ◌≤◌, ◌<◌, eqb, length};
ghost use Rattle.answer.specs.Said.{said};
ghost use Rattle.plan_checks.specs.Handed.{handed, of_parties, of_span, of_curves, PartsInside};
ghost use Rattle.rules.specs.Limits.{most_months};
ghost use Rattle.rules.specs.Plan.{month_start, part_from, part_to, reading_hours, hours_verdict, party_verdict, part_verdict, weight_verdict};
ghost use Rattle.rules.specs.Plan.{list_checks, span_checks, handed_checks};
ghost use Rattle.rules.specs.Refusals.{first, in_turn};
ghost use Rattle.rules.specs.Words.{within};

use answer::{Refusal, Refused};

// The reading's first hour in a month: "a of the first month", and of every other month its first.
pub fn part_from(k: usize, a: u16) -> u16
    ensures { result ≡ part_from (of_span a 0 []) k }
{
    if k == 0 {
        return a;
    }
    0
}

// The hour after its last: "b of the last", and of every other month all hours.
pub fn part_to(k: usize, b: u16, hours: &[u16]) -> u16
    requires { k < length hours.now }
    ensures { result ≡ part_to (of_span 0 b hours.now) k }
{
    if k + 1 == hours.len() {
        return b;
    }
    hours[k]
}

// "1 to 13 curves", and a party for each.
fn shaped(parties: usize, months: usize) -> bool
    ensures { result ≡ eqb parties months && within 1 most_months months }
{
    (parties == months) & ((1 <= months) & (months <= limits::MOST_MONTHS))
}

// "of 1 to 745 hours"
fn each_month(hours: &[u16]) -> Result<(), Refused>
    ensures { said result ≡ in_turn (length hours.now) (hours_verdict (of_span 0 0 hours.now)) }
{
    for h in hours {
        if !((1 <= *h) & (*h <= record::MOST_HOURS)) {
            return Err(Refused(Refusal::OutOfRange, 0));
        }
    }
    Ok(())
}

// A party is below 64, as in a record alone.
fn each_party(parties: &[u8]) -> Result<(), Refused>
    ensures { said result ≡ in_turn (length parties.now) (party_verdict (of_parties parties.now)) }
{
    for party in parties {
        if record::MOST_PARTIES <= *party {
            return Err(Refused(Refusal::OutOfRange, 0));
        }
    }
    Ok(())
}

// The hours of all months together.
fn all_hours(hours: &[u16]) -> usize
    requires { length hours.now ≤ most_months }
    ensures { result ≡ month_start (of_span 0 0 hours.now) (length hours.now) }
{
    let mut sum = 0;
    for h in hours {
        sum += *h as usize;
    }
    sum
}

// 4: the lists belong together, and each of their numbers is within its range.
fn lists_fit(parties: &[u8], hours: &[u16], curves: &[u32]) -> Result<(), Refused>
    ensures { said result ≡ first (list_checks (handed 0 0 0 parties.now hours.now curves.now)) }
{
    if !shaped(parties.len(), hours.len()) {
        return Err(Refused(Refusal::OutOfRange, 0));
    }
    each_month(hours)?;
    if curves.len() != all_hours(hours) {
        return Err(Refused(Refusal::OutOfRange, 0));
    }
    each_party(parties)
}

// "with an empty part in a month is 11"
fn each_part(a: u16, b: u16, hours: &[u16]) -> Result<(), Refused>
    ensures { said result ≡ in_turn (length hours.now) (part_verdict (of_span a b hours.now)) }
{
    for k in 0..hours.len() {
        let from = part_from(k, a);
        let to = part_to(k, b, hours);
        if !((from < to) & (to <= hours[k])) {
            return Err(Refused(Refusal::SpanFault, 0));
        }
    }
    Ok(())
}

// The hours of the reading, over all its months.
pub fn reading_hours(a: u16, b: u16, hours: &[u16]) -> usize
    requires { PartsInside a b hours.now }
    ensures { result ≡ reading_hours (of_span a b hours.now) }
{
    let mut sum = 0;
    for k in 0..hours.len() {
        let from = part_from(k, a);
        let to = part_to(k, b, hours);
        sum += (to - from) as usize;
    }
    sum
}

// 11: "a reading over 8,784 hours or with an empty part in a month"
fn span_fits(a: u16, b: u16, hours: &[u16]) -> Result<(), Refused>
    requires { length hours.now ≤ most_months }
    ensures { said result ≡ first (span_checks (of_span a b hours.now)) }
{
    each_part(a, b, hours)?;
    if limits::MOST_WEIGHTS < reading_hours(a, b, hours) {
        return Err(Refused(Refusal::SpanFault, 0));
    }
    Ok(())
}

// 10 of all curves handed in: unlike the periodisation's it has no place.
fn curves_fit(curves: &[u32]) -> Result<(), Refused>
    ensures { said result ≡ in_turn (length curves.now) (weight_verdict (of_curves curves.now)) }
{
    let each = answer::each_at_most(
        curves,
        limits::GREATEST_CURVE_NUMBER as u64,
        Refusal::CurveTooLarge,
    );
    let Ok(()) = each else {
        return Err(Refused(Refusal::CurveTooLarge, 0));
    };
    Ok(())
}

// "is 4; .. is 11; then 12, 10": all but 13.
pub fn handed_fits(
    e_wh: u64,
    a: u16,
    b: u16,
    parties: &[u8],
    hours: &[u16],
    curves: &[u32],
) -> Result<(), Refused>
    ensures { said result ≡ first (handed_checks (handed e_wh a b parties.now hours.now curves.now)) }
{
    lists_fit(parties, hours, curves)?;
    span_fits(a, b, hours)?;
    if (limits::GREATEST_ENERGY_WH as u64) < e_wh {
        return Err(Refused(Refusal::EnergyTooLarge, 0));
    }
    curves_fit(curves)
}
