// The curve of a month (01 "From flows to the curve"; H2 1.13): the curve number of each hour. The service takes any input; what it refuses, in which order and
// at which place stands in `curve_checks` of the rules.
#![tactic(auto)]

ghost use Rattle.std.specs.Prelude.{◌≡◌, ◌<◌, ◌/◌, length};
ghost use Rattle.answer.specs.Said.{said};
ghost use Rattle.curve_numbers.specs.Passes.{curve_shape, CurveReady};
ghost use Rattle.curve_numbers.specs.Promised.{Promised};
ghost use Rattle.rules.specs.Flows.{curve_number};
ghost use Rattle.rules.specs.Refusals.{curve_too_large};
ghost use Rattle.rules.specs.Services.{each_at, curve_fits, curve_figures};

use answer::{Refusal, Refused};

// "Curve number at most 1,000,000,000.", as wide as one that is not judged yet.
const GREATEST_CURVE_NUMBER: u64 = limits::GREATEST_CURVE_NUMBER as u64;

// "fixed residual x 1,000,000 / W"
const CURVE_SCALE: u64 = 1_000_000;

// "rounded down"
fn rounded_down(n: u64, w: u64) -> u64
    requires { 0 < w }
    ensures { result ≡ n / w }
{
    n / w
}

// "Curve number of an hour (H2 1.13) = fixed residual x 1,000,000 / W, rounded down."
fn curve_number(wh: u32, w: u64) -> u64
    requires { 0 < w }
    ensures { result ≡ curve_number wh w }
{
    rounded_down(wh as u64 * CURVE_SCALE, w)
}

// 16; 4: H outside 1..745; 6: W outside 1..4,000,000,000.
fn curve_shape(hours: usize, w: u64, lent: usize) -> Result<(), Refused>
    ensures { said result ≡ curve_shape hours w lent }
{
    if lent != hours {
        return Err(Refused(Refusal::WrongLength, 0));
    }
    if !((1 <= hours) & (hours <= limits::MOST_HOURS)) {
        return Err(Refused(Refusal::OutOfRange, 0));
    }
    if !((1 <= w) & (w <= limits::GREATEST_W_KWH)) {
        return Err(Refused(Refusal::WOutOfRange, 0));
    }
    Ok(())
}

// "Curve number at most 1,000,000,000.": the first hour whose curve number is larger.
fn curve_numbers_fit(residuals: &[u32], w: u64) -> Result<(), Refused>
    requires { 0 < w }
    ensures { said result ≡ each_at residuals.now (curve_fits w) curve_too_large }
{
    for (t, residual_wh) in residuals.iter().enumerate() {
        if GREATEST_CURVE_NUMBER < curve_number(*residual_wh, w) {
            return Err(Refused(Refusal::CurveTooLarge, t));
        }
    }
    Ok(())
}

// The curve number of every hour, of hours whose curve numbers all fit.
fn write_curve(residuals: &[u32], w: u64, out: &mut [u32])
    requires curve_ready { CurveReady residuals.now w }
    requires out_len { length out.old ≡ length residuals.now }
    ensures { out.new ≡ curve_figures residuals.now w }
{
    for t in 0..out.len() {
        out[t] = curve_number(residuals[t], w) as u32;
    }
}

// CURVE: the curve number of each hour into the lent series, or the first refusal and nothing written.
pub fn curve(residuals: &[u32], w: u64, out: &mut [u32]) -> Result<(), Refused>
    ensures { Promised residuals.now w out.old result out.new }
{
    curve_shape(residuals.len(), w, out.len())?;
    answer::each_at_most(
        residuals,
        limits::GREATEST_RESIDUAL_WH as u64,
        Refusal::ResidualTooLarge,
    )?;
    curve_numbers_fit(residuals, w)?;
    write_curve(residuals, w, out);
    Ok(())
}
