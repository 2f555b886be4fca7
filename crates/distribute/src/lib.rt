// The carries of all parties (01 "Distributed consumption"; H2 5.3), handed on from hour to hour. A party's running sum is share x R / W rounded down, and the
// Wh left over go one each to the largest remainders (`apportion`). What is carried is the remainder of that division, so no product passes 64 bits. The
// service over a whole span is `distribute_service`.
#![tactic(auto)]

ghost use Rattle.std.specs.Prelude.{◌≡◌, ℕ, ◌+◌, ◌≤◌, ◌<◌, pos, length};
ghost use Rattle.answer.specs.Said.{said};
ghost use Rattle.apportion.specs.Filled.{Filled};
ghost use Rattle.distribute.specs.Good.{Startable, Started, Ready, Next};
ghost use Rattle.distribute.specs.Parts.{grown_by, DividedBy, figure_by, minus, SmallParts};
ghost use Rattle.distribute.specs.Shares.{w_verdict, FewShares};
ghost use Rattle.distribute.specs.Written.{PutOn};
ghost use Rattle.rules.specs.Limits.{most_parties};
ghost use Rattle.rules.specs.Words.{at, sum};

use answer::{Refusal, Refused};

// The carries of all parties: what is handed on from hour to hour.
#[derive(Clone, Copy)]
pub struct Carries {
    pub parties: usize,
    // W, the sum of the shares
    pub w: u64,
    // R, the sum of the residuals so far
    pub sum_wh: u64,
    // the Wh left over of R
    pub left: u64,
    pub share: [u64; 64],
    // share x R mod W
    pub remainder: [u64; 64],
    // 1 for a party that has one of the Wh left over, else 0
    pub extra: [u64; 64],
    // the figures of the last hour
    pub figures: [i64; 64],
}

// A division by W, party by party.
#[derive(Clone, Copy)]
struct Divided {
    quotient: [u64; 64],
    rest: [u64; 64],
}

// The kept remainder and what the hour adds, party by party.
fn grown_by(remainder: &[u64; 64], share: &[u64; 64], n: usize, residual: u64) -> [u64; 64]
    requires { (n ≤ most_parties) × ((k : ℕ) → k < n → grown_by remainder.now share.now residual k < 18446744073709551616) }
    ensures { Filled 0 (grown_by remainder.now share.now residual) n result }
{
    let mut grown = [0u64; 64];
    for i in 0..n {
        grown[i] = remainder[i] + share[i] * residual;
    }
    grown
}

// What each floor grows by, and the remainder that is kept.
fn divide(grown: &[u64; 64], n: usize, w: u64) -> Divided
    requires { (n ≤ most_parties) × (0 < w) }
    ensures { DividedBy grown.now w n result }
{
    let mut quotient = [0u64; 64];
    let mut rest = [0u64; 64];
    for i in 0..n {
        let sum = grown[i];
        quotient[i] = sum / w;
        rest[i] = sum % w;
    }
    Divided { quotient, rest }
}

// The sum of the first n: W of shares, what the quotients give out, a column of the statement.
pub fn total(values: &[u64; 64], n: usize) -> u64
    requires { (n ≤ most_parties) × (sum n (at values.now) < 18446744073709551616) }
    ensures { result ≡ sum n (at values.now) }
{
    let mut all = 0;
    for i in 0..n {
        all += values[i];
    }
    all
}

// One party's figure: what its floor grew by, with the left-over Wh of now and without that of before.
fn figure_of(quotient: u64, after: u64, before: u64) -> i64
    requires { (quotient + after < 9223372036854775808) × (before < 9223372036854775808) }
    ensures { result ≡ minus (quotient + after) before }
{
    (quotient + after) as i64 - before as i64
}

// The hour's figures.
fn figures_of(quotient: &[u64; 64], after: &[u64; 64], before: &[u64; 64], n: usize) -> [i64; 64]
    requires { (n ≤ most_parties) × ((k : ℕ) → k < n → SmallParts quotient.now after.now before.now k) }
    ensures { Filled (pos 0) (figure_by quotient.now after.now before.now) n result }
{
    let mut figures = [0i64; 64];
    for i in 0..n {
        figures[i] = figure_of(quotient[i], after[i], before[i]);
    }
    figures
}

// The shares of a span, one place for each party that a month can have.
fn padded(shares: &[u64]) -> [u64; 64]
    requires { length shares.now ≤ most_parties }
    ensures { Filled 0 (at shares.now) (length shares.now) result }
{
    let mut share = [0u64; 64];
    share[0..shares.len()].copy_from_slice(shares);
    share
}

impl Carries {
    // Before the first hour of a span with these shares: nothing carried, nothing left over. It can be started at any hour.
    pub fn start(shares: &[u64]) -> Carries
        requires { Startable shares.now }
        ensures { Started shares.now result }
    {
        let n = shares.len();
        let share = padded(shares);
        let w = total(&share, n);
        Carries {
            parties: n,
            w,
            sum_wh: 0,
            left: 0,
            share,
            remainder: [0u64; 64],
            extra: [0u64; 64],
            figures: [0i64; 64],
        }
    }

    // One hour on: the state after one residual more, with the hour's figures in it.
    pub fn step(self, residual_wh: u32) -> Carries
        requires { Ready self residual_wh }
        ensures { Next self residual_wh result }
    {
        let n = self.parties;
        let w = self.w;
        let share = self.share;
        let remainder = self.remainder;
        let before = self.extra;
        let residual = residual_wh as u64;
        let grown = grown_by(&remainder, &share, n, residual);
        let parts = divide(&grown, n, w);
        let quotient = parts.quotient;
        let rest = parts.rest;
        let left = self.left + residual - total(&quotient, n);
        let extra = apportion::one_each(&rest, n, left);
        let figures = figures_of(&quotient, &extra, &before, n);
        Carries {
            parties: n,
            w,
            sum_wh: self.sum_wh + residual,
            left,
            share,
            remainder: rest,
            extra,
            figures,
        }
    }
}

// An hour's figures into a lent list, from a place on.
pub fn put_figures(from: &[i64; 64], n: usize, out: &mut [i64], place: usize)
    requires { (n ≤ most_parties) × (place + n ≤ length out.old) }
    ensures { PutOn (pos 0) «from».now n place out.old out.new }
{
    out[place..place + n].copy_from_slice(&from[0..n]);
}

// 6: W, the sum of at most 64 shares within their limit.
pub fn w_in_range(shares: &[u64]) -> Result<(), Refused>
    requires { FewShares shares.now }
    ensures { said result ≡ w_verdict shares.now }
{
    let share = padded(shares);
    let w = total(&share, shares.len());
    if !((1 <= w) & (w <= limits::GREATEST_W_KWH)) {
        return Err(Refused(Refusal::WOutOfRange, 0));
    }
    Ok(())
}
