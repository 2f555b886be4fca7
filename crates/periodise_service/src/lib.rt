// The periodisation service (01 "Periodised consumption" and "Refusal numbers"): E and the weights alone, spread by the core. C and the tests call it; the month
// goes to the core itself.
#![tactic(auto)]

ghost use Rattle.std.specs.Prelude.{◌≡◌, length};
ghost use Rattle.answer.specs.Said.{said};
ghost use Rattle.periodise.specs.Growth.{Within};
ghost use Rattle.periodise_service.specs.Follow.{follow_check};
ghost use Rattle.periodise_service.specs.Promised.{Promised};
ghost use Rattle.rules.specs.Periodised.{periodised_figure};
ghost use Rattle.rules.specs.Words.{figures, at};

use answer::{Refusal, Refused};

// The growths of a reading whose hours all stand here. `periodise::add` goes the same way hour by hour; its figures are added as ones of 64 bits, these are
// written as ones of 32.
fn spread(e: u64, s: u64, weights: &[u32], out: &mut [u32])
    requires within { Within e 0 s (at weights.now) (length weights.now) }
    requires out_len { length out.old ≡ length weights.now }
    ensures { out.new ≡ figures (length weights.now) (periodised_figure e 0 s (at weights.now)) }
{
    let divisor = periodise::divisor_of(s);
    let mut left = 0;
    for i in 0..weights.len() {
        let t = periodise::hour_of(e, weights[i], left, divisor);
        out[i] = t.wh;
        left = t.left;
    }
}

// "E positive and S zero" is refused.
fn followed_by(e: u64, s: u64) -> Result<(), Refused>
    ensures { said result ≡ follow_check e s }
{
    if e == 0 {
        return Ok(());
    }
    if 1 <= s {
        return Ok(());
    }
    Err(Refused(Refusal::NothingToFollow, 0))
}

// The service. "periodisation 11, 12, 10, 13 (all at place 0 but 10)", after 16.
pub fn periodisation(e: u64, weights: &[u32], out: &mut [u32]) -> Result<(), Refused>
    ensures { Promised e weights.now out.old result out.new }
{
    if out.len() != weights.len() {
        return Err(Refused(Refusal::WrongLength, 0));
    }
    if weights.len() < 1 {
        return Err(Refused(Refusal::SpanFault, 0));
    }
    if limits::MOST_WEIGHTS < weights.len() {
        return Err(Refused(Refusal::SpanFault, 0));
    }
    if (limits::GREATEST_ENERGY_WH as u64) < e {
        return Err(Refused(Refusal::EnergyTooLarge, 0));
    }
    answer::each_at_most(
        weights,
        limits::GREATEST_CURVE_NUMBER as u64,
        Refusal::CurveTooLarge,
    )?;
    let s = periodise::total(weights);
    followed_by(e, s)?;
    spread(e, s, weights, out);
    Ok(())
}
