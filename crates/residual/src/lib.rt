// The residual of an hour, judged, and of two series the applied one (01 "From flows to the curve"). `residual_service` has the residuals of a whole series as a
// call alone, `curve_numbers` the curve.
#![tactic(auto)]

ghost use Rattle.std.specs.Prelude.{◌≡◌};
ghost use Rattle.rules.specs.Flows.{residual};
ghost use Rattle.answer.specs.Said.{named};
ghost use Rattle.residual.specs.Hour.{flows_here, refusal_of, WithinLimits};
ghost use Rattle.residual.specs.Promised.{JudgePromised, AppliedPromised};

use answer::Refusal;

// "Residual 0..2,000,000,000.", as wide as a residual that may be negative.
const GREATEST_RESIDUAL: i64 = limits::GREATEST_RESIDUAL_WH as i64;

// Why an hour has no residual.
#[derive(Clone, Copy, Debug, PartialEq, Eq)]
pub enum NoResidual {
    Missing,
    Negative,
    TooLarge,
}

// "7, 8, 9"
impl From<NoResidual> for Refusal {
    ghost from_gives = { λ why refusal. named refusal ≡ refusal_of why };

    fn from(why: NoResidual) -> Refusal {
        match why {
            NoResidual::Missing => Refusal::MissingHour,
            NoResidual::Negative => Refusal::ResidualNegative,
            NoResidual::TooLarge => Refusal::ResidualTooLarge,
        }
    }
}

// "then the fixed hours in order, each 7, 8, 9": one hour, by its status and the ranges of its residual.
pub fn judge(status: u8, residual_wh: i64) -> Result<u32, NoResidual>
    ensures { JudgePromised status residual_wh result }
{
    match status {
        limits::MISSING => Err(NoResidual::Missing),
        _ => match residual_wh {
            ..0 => Err(NoResidual::Negative),
            0..=GREATEST_RESIDUAL => {
                let wh = residual_wh as u32;
                Ok(wh)
            }
            _ => Err(NoResidual::TooLarge),
        },
    }
}

// "Residual of an hour (H2 ch. 4) = net supply + local production - hourly settled - flex settled." The status, 0 in the promise, has no part in it.
pub fn residual_of(net: i64, production: u64, hourly: u64, flex: u64) -> i64
    requires { WithinLimits net production hourly flex }
    ensures { result ≡ residual (flows_here 0 net production hourly flex) }
{
    net + production as i64 - hourly as i64 - flex as i64
}

// "The applied series is the refixed series if the file has one, otherwise the fixed series." A part of one of the two.
pub fn applied<'a>(fixed: &'a [u32], refixed: &'a [u32], has_refixed: bool) -> &'a [u32]
    ensures { AppliedPromised fixed.now refixed.now has_refixed result.now }
{
    if has_refixed {
        &refixed[0..refixed.len()]
    } else {
        &fixed[0..fixed.len()]
    }
}
