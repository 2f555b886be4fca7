// The planner for whoever lends the lists, as C does (`settle_c`): of the record of each month a, b, the weight before it and the weight of the whole reading,
// each number into a list of its own. 16 is told before what the planner refuses, `lent_plan_checks` of the rules.
#![tactic(auto)]

ghost use Rattle.std.specs.Prelude.{◌&&◌, ◌≡◌, eqb};
ghost use Rattle.plan_checks.specs.Handed.{handed};
ghost use Rattle.plan_service.specs.Planned.{PlacesFor, NumbersOf};
ghost use Rattle.plan_service.specs.Promised.{Promised};
ghost use Rattle.record.specs.Record.{over_of};
ghost use Rattle.rules.specs.Month.{weight_before, whole_weight};

use answer::{Refusal, Refused};
use plan::Planned;
use record::Over;

// 16 of the planner: "for another length than the number of months"
fn as_many(months: usize, from: usize, to: usize, before: usize, whole: usize) -> bool
    ensures { result ≡ eqb from months && eqb to months && eqb before months && eqb whole months }
{
    (from == months) & (to == months) & (before == months) & (whole == months)
}

// The weight before a month, and of the whole reading, of a record of a plan.
fn before_of(over: Over) -> u64
    ensures { result ≡ weight_before (over_of over) }
{
    match over {
        Over::ThisMonth => 0,
        Over::ManyMonths(before, _) => before,
    }
}

fn whole_of(over: Over) -> u64
    ensures { result ≡ whole_weight (over_of over) 0 }
{
    match over {
        Over::ThisMonth => 0,
        Over::ManyMonths(_, whole) => whole,
    }
}

// The records of a plan, number by number, into the four lists, which have a place for each month.
fn put_records(
    p: Planned,
    out_a: &mut [u16],
    out_b: &mut [u16],
    out_before: &mut [u64],
    out_whole: &mut [u64],
)
    requires { PlacesFor p.months out_a.old out_b.old out_before.old out_whole.old }
    ensures { NumbersOf p.records p.months out_a.new out_b.new out_before.new out_whole.new }
{
    let records = p.records;
    let months = p.months;
    for k in 0..months {
        let x = records[k];
        let over = x.over;
        out_a[k] = x.a;
        out_b[k] = x.b;
        out_before[k] = before_of(over);
        out_whole[k] = whole_of(over);
    }
}

// PLANNER: the numbers of the records into the four lists, or the first refusal and nothing written. A record's party and E are those handed in.
pub fn plan(
    e_wh: u64,
    a: u16,
    b: u16,
    parties: &[u8],
    hours: &[u16],
    curves: &[u32],
    out_a: &mut [u16],
    out_b: &mut [u16],
    out_before: &mut [u64],
    out_whole: &mut [u64],
) -> Result<(), Refused>
    ensures { Promised (handed e_wh a b parties.now hours.now curves.now)
        out_a.old out_b.old out_before.old out_whole.old
        result out_a.new out_b.new out_before.new out_whole.new }
{
    if !as_many(
        hours.len(),
        out_a.len(),
        out_b.len(),
        out_before.len(),
        out_whole.len(),
    ) {
        return Err(Refused(Refusal::WrongLength, 0));
    }
    // Taken apart by hand: must-fail edits stand at the refusal, told as done, and told with an hour written.
    match plan::plan(e_wh, a, b, parties, hours, curves) {
        Ok(p) => {
            put_records(p, out_a, out_b, out_before, out_whole);
            Ok(())
        }
        Err(refused) => Err(refused),
    }
}
