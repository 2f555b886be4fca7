// The distribution service (01 "Distributed consumption"; H2 5.3): the residuals of a span of hours distributed on parties by their shares. It takes any
// input; what it refuses, in which order and at which place stands in `distribution_checks` of the rules. `distribute` has the hour and its carries.
#![tactic(auto)]

ghost use Rattle.std.specs.Prelude.{◌≡◌, ◌*◌, eqb, length};
ghost use Rattle.answer.specs.Said.{said};
ghost use Rattle.distribute_service.specs.Promised.{Promised};
ghost use Rattle.distribute_service.specs.Service.{shape_verdict, Distributable};
ghost use Rattle.rules.specs.Services.{distribution_figures};

use answer::{Refusal, Refused, each_at_most};
use distribute::{Carries, w_in_range};

// Whether a lent output has a place for each party in each hour; by division, since the product could pass 64 bits.
fn lent_right(lent: usize, parties: usize, hours: usize) -> bool
    ensures { result ≡ eqb lent (parties * hours) }
{
    if parties == 0 {
        return lent == 0;
    }
    if lent % parties != 0 {
        return false;
    }
    lent / parties == hours
}

// 16, then 4 for H and P.
fn shape(lent: usize, parties: usize, hours: usize) -> Result<(), Refused>
    ensures { said result ≡ shape_verdict lent parties hours }
{
    if !lent_right(lent, parties, hours) {
        return Err(Refused(Refusal::WrongLength, 0));
    }
    if !((1 <= hours)
        & (hours <= limits::MOST_HOURS)
        & ((1 <= parties) & (parties <= limits::MOST_PARTIES)))
    {
        return Err(Refused(Refusal::OutOfRange, 0));
    }
    Ok(())
}

// All hours in turn, each from the carries of the hour before.
fn distribute(shares: &[u64], residuals: &[u32], out: &mut [i64])
    requires { Distributable shares.now residuals.now (length out.old) }
    ensures { out.new ≡ distribution_figures shares.now residuals.now }
{
    let n = shares.len();
    let mut carries = Carries::start(shares);
    let mut place = 0;
    for t in 0..residuals.len() {
        carries = carries.step(residuals[t]);
        let figures = carries.figures;
        distribute::put_figures(&figures, n, out, place);
        place += n;
    }
}

// DISTRIBUTION. The figures of every hour, hour by hour and within an hour party by party. Refuses 16, 4 (H, P, a share at its party), 6 and 9, in that
// order.
pub fn distribution(shares: &[u64], residuals: &[u32], out: &mut [i64]) -> Result<(), Refused>
    ensures { Promised shares.now residuals.now out.old result out.new }
{
    shape(out.len(), shares.len(), residuals.len())?;
    each_at_most(shares, limits::GREATEST_SHARE_KWH, Refusal::OutOfRange)?;
    w_in_range(shares)?;
    each_at_most(
        residuals,
        limits::GREATEST_RESIDUAL_WH as u64,
        Refusal::ResidualTooLarge,
    )?;
    distribute(shares, residuals, out);
    Ok(())
}
