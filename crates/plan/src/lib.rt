// The planner of a reading over months (02, W3): "a planner makes them" (the 08 records) "from E, a of the first month, b of the last, the party's number in each
// and the months' curves". The curves come as one list, with the hours of each month beside it; the records come back by value, so nothing is lent. What it
// refuses, and in which order, stands in `plan_checks` of the rules.
#![tactic(auto)]

ghost use Rattle.std.specs.Prelude.{◌≡◌};
ghost use Rattle.plan.specs.Planning.{of_all, no_reading, MakingAsked};
ghost use Rattle.plan.specs.Promised.{RecordsOf, Promised};
ghost use Rattle.plan_checks.specs.Handed.{handed};
ghost use Rattle.rules.proofs.Plan.{Weighed};
ghost use Rattle.rules.specs.Month.{follows_whole};
ghost use Rattle.rules.specs.Plan.{planned_whole};

use answer::{Refusal, Refused};
use plan_checks::{part_from, part_to, reading_hours};
use record::{Over, Reading};

// What the planner gives: the records of the reading, one for each of its months: the first so many of thirteen. Behind them stands no reading.
#[derive(Clone, Copy)]
pub struct Planned {
    pub months: usize,
    pub records: [Reading; 13],
}

// "weight of the whole reading": its hours follow one another in the joined curves, from a on.
fn whole_weight(a: u16, b: u16, hours: &[u16], curves: &[u32]) -> u64
    requires { Weighed (of_all a b hours.now curves.now) }
    ensures { result ≡ planned_whole (of_all a b hours.now curves.now) }
{
    let start = a as usize;
    let end = start + reading_hours(a, b, hours);
    periodise::total(&curves[start..end])
}

// 13 does not apply: there is no energy, or a weight to follow.
fn follows(e_wh: u64, whole: u64) -> bool
    ensures { result ≡ follows_whole e_wh whole }
{
    (e_wh == 0) | (1 <= whole)
}

// No reading: what stands behind the records of a plan.
fn no_reading() -> Reading
    ensures { result ≡ no_reading }
{
    Reading {
        party: 0,
        a: 0,
        b: 0,
        e_wh: 0,
        over: Over::ThisMonth,
    }
}

// The records, month by month: each with the weight of the months before it, which its own part then adds to.
fn make(
    e_wh: u32,
    a: u16,
    b: u16,
    parties: &[u8],
    hours: &[u16],
    curves: &[u32],
    whole: u64,
) -> Planned
    requires { MakingAsked (handed e_wh a b parties.now hours.now curves.now) whole }
    ensures { RecordsOf (handed e_wh a b parties.now hours.now curves.now) result }
{
    let none = no_reading();
    let mut records = [none; 13];
    let mut before = 0;
    let mut start = 0;
    for k in 0..hours.len() {
        let from = part_from(k, a);
        let to = part_to(k, b, hours);
        records[k] = Reading {
            party: parties[k],
            a: from,
            b: to,
            e_wh: e_wh,
            over: Over::ManyMonths(before, whole),
        };
        before += periodise::total(&curves[start + from as usize..start + to as usize]);
        start += hours[k] as usize;
    }
    Planned {
        months: hours.len(),
        records: records,
    }
}

// THE PLANNER. Refuses, all at place 0: 4, 11, 12, 10, and 13 where there is energy and no weight to follow.
pub fn plan(
    e_wh: u64,
    a: u16,
    b: u16,
    parties: &[u8],
    hours: &[u16],
    curves: &[u32],
) -> Result<Planned, Refused>
    ensures { Promised (handed e_wh a b parties.now hours.now curves.now) result }
{
    plan_checks::handed_fits(e_wh, a, b, parties, hours, curves)?;
    let whole = whole_weight(a, b, hours, curves);
    if !follows(e_wh, whole) {
        return Err(Refused(Refusal::NothingToFollow, 0));
    }
    Ok(make(e_wh as u32, a, b, parties, hours, curves, whole))
}
