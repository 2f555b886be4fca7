// The residual of a whole series (01 "From flows to the curve"): five lists of an hour's status and flows, checked list by list and then hour by hour. The
// service takes any input; what it refuses, in which order and at which place stands in `residual_checks` of the rules. `residual` has the one hour.
#![tactic(auto)]

ghost use Rattle.std.specs.Prelude.{◌≡◌, length};
ghost use Rattle.answer.specs.Said.{said};
ghost use Rattle.rules.specs.Flows.{silent_is_zero, verdict_of};
ghost use Rattle.rules.specs.Limits.{estimated};
ghost use Rattle.rules.specs.Refusals.{out_of_range, in_turn};
ghost use Rattle.rules.specs.Services.{each_at, silent_check, hour_check, residual_figures};
ghost use Rattle.rules.specs.Words.{at_most};
ghost use Rattle.residual.specs.Hour.{judgement, flows_here};
ghost use Rattle.residual_service.specs.Passes.{residual_here, WithinLimitsAt, residual_shape, ranges_of, SameLengths, Ranged, Judged};
ghost use Rattle.residual_service.specs.Promised.{Promised};

use answer::{Refusal, Refused};
use residual::NoResidual;

// "Net supply -8,000,000,000..8,000,000,000"
const GREATEST_NET_WH: i64 = limits::GREATEST_FLOW_WH as i64;

const LEAST_NET_WH: i64 = -GREATEST_NET_WH;

// The residual of one hour of the four series of flows.
fn residual_at(nets: &[i64], productions: &[u64], hourlies: &[u64], flexes: &[u64], t: usize) -> i64
    requires { WithinLimitsAt nets.now productions.now hourlies.now flexes.now t }
    ensures { result ≡ residual_here nets.now productions.now hourlies.now flexes.now t }
{
    residual::residual_of(nets[t], productions[t], hourlies[t], flexes[t])
}

// A judgement as an answer at its hour: 7, 8, 9, or done.
fn answer_of(hour: Result<u32, NoResidual>, place: usize) -> Result<(), Refused>
    ensures { said result ≡ verdict_of (judgement hour) place }
{
    match hour {
        Ok(_) => Ok(()),
        Err(why) => Err(Refused(Refusal::from(why), place)),
    }
}

// "With status 0 a figure other than 0 is refused with 4": a missing hour has no figure.
fn silent_is_zero(status: u8, net: i64, production: u64, hourly: u64, flex: u64) -> bool
    ensures { result ≡ silent_is_zero (flows_here status net production hourly flex) }
{
    (1 <= status) | ((net == 0) & (production == 0) & (hourly == 0) & (flex == 0))
}

// Every status is 0, 1 or 2.
fn statuses_in_range(statuses: &[u8]) -> Result<(), Refused>
    ensures { said result ≡ each_at statuses.now (at_most estimated) out_of_range }
{
    for i in 0..statuses.len() {
        if limits::ESTIMATED < statuses[i] {
            return Err(Refused(Refusal::OutOfRange, i));
        }
    }
    Ok(())
}

// 16; 4: lists of unequal length, H outside 1..745. Of lengths alone.
fn residual_shape(
    statuses: usize,
    nets: usize,
    productions: usize,
    hourlies: usize,
    flexes: usize,
    lent: usize,
) -> Result<(), Refused>
    ensures { said result ≡ residual_shape statuses nets productions hourlies flexes lent }
{
    if lent != statuses {
        return Err(Refused(Refusal::WrongLength, 0));
    }
    if !((nets == statuses)
        & (productions == statuses)
        & (hourlies == statuses)
        & (flexes == statuses))
    {
        return Err(Refused(Refusal::OutOfRange, 0));
    }
    if !((1 <= statuses) & (statuses <= limits::MOST_HOURS)) {
        return Err(Refused(Refusal::OutOfRange, 0));
    }
    Ok(())
}

// "the place of 4 is the first value outside in its list, lists in the order named"
fn flows_in_range(
    statuses: &[u8],
    nets: &[i64],
    productions: &[u64],
    hourlies: &[u64],
    flexes: &[u64],
) -> Result<(), Refused>
    ensures { said result ≡ ranges_of statuses.now nets.now productions.now hourlies.now flexes.now }
{
    statuses_in_range(statuses)?;
    answer::each_within_i64(nets, LEAST_NET_WH, GREATEST_NET_WH, Refusal::OutOfRange)?;
    answer::each_at_most(productions, limits::GREATEST_FLOW_WH, Refusal::OutOfRange)?;
    answer::each_at_most(hourlies, limits::GREATEST_FLOW_WH, Refusal::OutOfRange)?;
    answer::each_at_most(flexes, limits::GREATEST_FLOW_WH, Refusal::OutOfRange)
}

// The first missing hour that has a figure: 4 at that hour.
fn silent_hours(
    statuses: &[u8],
    nets: &[i64],
    productions: &[u64],
    hourlies: &[u64],
    flexes: &[u64],
) -> Result<(), Refused>
    requires { SameLengths statuses.now nets.now productions.now hourlies.now flexes.now }
    ensures { said result ≡ in_turn (length statuses.now)
        (silent_check statuses.now nets.now productions.now hourlies.now flexes.now) }
{
    for t in 0..statuses.len() {
        if !silent_is_zero(statuses[t], nets[t], productions[t], hourlies[t], flexes[t]) {
            return Err(Refused(Refusal::OutOfRange, t));
        }
    }
    Ok(())
}

// "each 7, 8, 9": the first hour that has no figure.
fn judge_hours(
    statuses: &[u8],
    nets: &[i64],
    productions: &[u64],
    hourlies: &[u64],
    flexes: &[u64],
) -> Result<(), Refused>
    requires { Ranged statuses.now nets.now productions.now hourlies.now flexes.now }
    ensures { said result ≡ in_turn (length statuses.now)
        (hour_check statuses.now nets.now productions.now hourlies.now flexes.now) }
{
    for t in 0..statuses.len() {
        let wh = residual_at(nets, productions, hourlies, flexes, t);
        let hour = residual::judge(statuses[t], wh);
        answer_of(hour, t)?;
    }
    Ok(())
}

// The residual of every hour, of hours that all have one.
fn write_residuals(
    statuses: &[u8],
    nets: &[i64],
    productions: &[u64],
    hourlies: &[u64],
    flexes: &[u64],
    out: &mut [u32],
)
    requires judged { Judged statuses.now nets.now productions.now hourlies.now flexes.now }
    requires out_len { length out.old ≡ length statuses.now }
    ensures { out.new ≡ residual_figures statuses.now nets.now productions.now hourlies.now flexes.now }
{
    for t in 0..out.len() {
        let wh = residual_at(nets, productions, hourlies, flexes, t);
        out[t] = wh as u32;
    }
}

// RESIDUAL: the residual of each hour into the lent series, or the first refusal and nothing written.
pub fn residual(
    statuses: &[u8],
    nets: &[i64],
    productions: &[u64],
    hourlies: &[u64],
    flexes: &[u64],
    out: &mut [u32],
) -> Result<(), Refused>
    ensures { Promised statuses.now nets.now productions.now hourlies.now flexes.now
        out.old result out.new }
{
    residual_shape(
        statuses.len(),
        nets.len(),
        productions.len(),
        hourlies.len(),
        flexes.len(),
        out.len(),
    )?;
    flows_in_range(statuses, nets, productions, hourlies, flexes)?;
    silent_hours(statuses, nets, productions, hourlies, flexes)?;
    judge_hours(statuses, nets, productions, hourlies, flexes)?;
    write_residuals(statuses, nets, productions, hourlies, flexes, out);
    Ok(())
}
