// The series of a month that a file is read as (01 "From flows to the curve" and "Refusal numbers"): its load shares, the fixed and refixed residuals with 7, 8
// and 9, the curve's beginnings, and 18 and 13 by reading (02, W3). What goes through the file does so by the readers of `file_fields`, so it asks that the file
// is accepted.
#![tactic(auto)]

ghost use Rattle.std.specs.Prelude.{true, ◌≡◌, suc, ◌-◌, ◌≤◌, ◌<◌, length};
ghost use Rattle.answer.specs.Said.{said};
ghost use Rattle.file_sections.specs.Walk.{Accepted};
ghost use Rattle.month_series.specs.Series.{series_of, hours_in, beginning, beginnings_of, HourAsked, estimated_one, spread_of, spread_checks, SeriesIs};
ghost use Rattle.record.specs.Record.{flows_of, reading_of};
ghost use Rattle.residual.specs.Hour.{judgement};
ghost use Rattle.rules.specs.Flows.{judged, flows_in_range};
ghost use Rattle.rules.specs.Limits.{most_hours};
ghost use Rattle.rules.specs.Month.{month_of, share_of, flows_at, weights_fit, follows_whole, reading_verdict};
ghost use Rattle.rules.specs.MonthFile.{P};
ghost use Rattle.rules.specs.Refusals.{first, in_turn};
ghost use Rattle.rules.specs.Words.{figures, at};

use answer::{Refusal, Refused};
use file_sections::Sections;
use periodise::Spread;
use record::{Flows, Over, Reading};
use residual::NoResidual;

// The load share of every party, in kWh per year.
pub fn shares(file: &[u8], s: Sections, out: &mut [u64])
    requires accepted { Accepted file.now s }
    requires out_len { length out.old ≡ s.heading.parties }
    ensures { out.new ≡ figures (P (month_of file.now)) (share_of (month_of file.now)) }
{
    for i in 0..out.len() {
        out[i] = file_fields::load_share(file, s, i);
    }
}

// The status and flows of an hour of either series.
fn flows_at(file: &[u8], s: Sections, refixed: bool, t: usize) -> Flows
    requires { HourAsked file.now s refixed t }
    ensures { flows_of result ≡ flows_at (series_of (month_of file.now) refixed) t }
{
    if refixed {
        file_fields::refixed_flows(file, s, t)
    } else {
        file_fields::fixed_flows(file, s, t)
    }
}

// "each 7, 8, 9": what is decided of one hour by its status and its flows.
fn judge_flows(f: Flows) -> Result<u32, NoResidual>
    requires { flows_in_range (flows_of f) ≡ true }
    ensures { judgement result ≡ judged (flows_of f) }
{
    let wh = residual::residual_of(f.net_wh, f.production_wh, f.hourly_wh, f.flex_wh);
    residual::judge(f.status, wh)
}

// "the number of applied hours with status 2": 1 for such an hour.
fn estimated_one(status: u8) -> usize
    ensures { result ≡ estimated_one status }
{
    (status == limits::ESTIMATED) as usize
}

// "then the fixed hours in order, each 7, 8, 9; the refixed hours likewise": the residual of every hour of either series, and how many of its hours are estimated; or
// the first hour that has none.
pub fn hours(file: &[u8], s: Sections, refixed: bool, out: &mut [u32]) -> Result<usize, Refused>
    requires accepted { Accepted file.now s }
    requires out_len { length out.old ≡ hours_in s refixed }
    ensures { SeriesIs (series_of (month_of file.now) refixed) result out.new }
{
    let mut estimated = 0;
    for t in 0..out.len() {
        let f = flows_at(file, s, refixed, t);
        match judge_flows(f) {
            Ok(wh) => {
                out[t] = wh;
                estimated += estimated_one(f.status);
            }
            Err(why) => {
                return Err(Refused(Refusal::from(why), t));
            }
        }
    }
    Ok(estimated)
}

// What the curve adds up to before each hour, and last over the whole month: the weights of a reading a..b are then a difference of two of these.
pub fn beginnings(curve: &[u32], out: &mut [u64])
    requires out_len { length out.old ≡ suc (length curve.now) }
    requires curve_len_bound { length curve.now ≤ most_hours }
    ensures { out.new ≡ figures (suc (length curve.now)) (beginning (at curve.now)) }
{
    let mut sum = 0;
    for t in 0..curve.len() {
        out[t] = sum;
        sum += curve[t] as u64;
    }
    out[curve.len()] = sum;
}

// What the curve weighs between two hours.
pub fn weight_between(beginnings: &[u64], a: usize, b: usize) -> u64
    requires { (a < length beginnings.now) × ((b < length beginnings.now) × (at beginnings.now a ≤ at beginnings.now b)) }
    ensures { result ≡ at beginnings.now b - at beginnings.now a }
{
    beginnings[b] - beginnings[a]
}

// A reading as it is spread: one in this month has nothing before this month, and the month's own weight as the whole (02, W3). This is all that tells a 04
// from an 08.
pub fn spread_of(x: Reading, own: u64) -> Spread
    ensures { result ≡ spread_of (reading_of x) own }
{
    let over = x.over;
    match over {
        Over::ThisMonth => Spread {
            e_wh: x.e_wh as u64,
            before: 0,
            whole: own,
        },
        Over::ManyMonths(before, whole) => Spread {
            e_wh: x.e_wh as u64,
            before: before,
            whole: whole,
        },
    }
}

// 18 does not apply. "weight before plus the month's own weight" can pass 64 bits, so it is never formed.
fn weights_fit(s: Spread, own: u64) -> bool
    ensures { result ≡ weights_fit s.before own s.whole }
{
    if s.whole < s.before {
        return false;
    }
    (own <= s.whole - s.before) & (s.whole <= limits::GREATEST_WHOLE)
}

// 13 does not apply: there is no energy, or a weight to follow.
fn follows(s: Spread) -> bool
    ensures { result ≡ follows_whole s.e_wh s.whole }
{
    (s.e_wh == 0) | (1 <= s.whole)
}

// 18 of a reading, and then 13.
fn judge_reading(s: Spread, own: u64, j: usize) -> Result<(), Refused>
    ensures { said result ≡ first (spread_checks s own j) }
{
    if !weights_fit(s, own) {
        return Err(Refused(Refusal::WholeExceeded, j));
    }
    if !follows(s) {
        return Err(Refused(Refusal::NothingToFollow, j));
    }
    Ok(())
}

// "13 by reading", and 18 before it (02, W3): the first reading that is refused. Each stands behind the bytes of the one before it.
pub fn judge_readings(file: &[u8], s: Sections, beginnings: &[u64]) -> Result<(), Refused>
    requires accepted { Accepted file.now s }
    requires beginnings_value { beginnings.now ≡ beginnings_of (month_of file.now) }
    ensures { said result ≡ in_turn (length (month_of file.now).readings) (reading_verdict (month_of file.now)) }
{
    let readings = s.readings;
    let mut place = s.readings_at;
    for j in 0..readings {
        let x = file_fields::reading(file, place);
        let own = weight_between(beginnings, x.a as usize, x.b as usize);
        judge_reading(spread_of(x, own), own, j)?;
        place += record::reading_size(x);
    }
    Ok(())
}
