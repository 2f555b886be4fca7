// Periodised consumption (01 "Periodised consumption"; H2 6.2): the core. A reading is spread over its hours by the curve. The reading's part of the curve is handed
// over as a slice of its own, with the run of its hours that is asked for, so that a run costs no more than its own hours.
#![tactic(auto)]

ghost use Rattle.std.specs.Prelude.{◌≡◌, ◌*◌, ◌%◌, ◌<◌, ◌≤◌, max, length};
ghost use Rattle.periodise.specs.Growth.{grown_from, Part, Turning, Turned, Room};
ghost use Rattle.rules.specs.Limits.{greatest_energy, greatest_whole};
ghost use Rattle.rules.specs.Words.{sum, figures, at};

// E x weights passes 64 bits (1,000,000,000 x 8,784,000,000,000), so the product goes by two digits of 20 bits; the remainder after the first keeps the
// second within 64.
fn product_mod(a: u64, b: u64, m: u64) -> u64
    requires { (a ≤ greatest_energy) × ((b ≤ greatest_whole) × ((0 < m) × (m ≤ greatest_whole))) }
    ensures { result ≡ a * b % m }
{
    if b == 0 {
        return 0;
    }
    let high = a * (b / 1_048_576) % m;
    (high * 1_048_576 + a * (b % 1_048_576)) % m
}

// The sum of figures of 32 bits: of curve numbers S, of an hour's periodised figures all that is periodised.
pub fn total(values: &[u32]) -> u64
    requires { length values.now ≤ 4294967296 }
    ensures { result ≡ sum (length values.now) (at values.now) }
{
    let mut sum_so_far: u64 = 0;
    for value in values {
        sum_so_far += *value as u64;
    }
    sum_so_far
}

// "With E = 0 and S = 0 every figure is 0": where the whole is nothing the weights are all 0, and 1 divides as well.
pub fn divisor_of(whole: u64) -> u64
    ensures { result ≡ max whole 1 }
{
    whole.max(1)
}

// An hour's figure, and what is left of E x (weights so far) for the hours after it.
#[derive(Clone, Copy)]
pub struct Turn {
    pub wh: u32,
    pub left: u64,
}

// One hour: of what the hours before left and E x its own weight the figure is the whole part, and the rest is kept.
pub fn hour_of(e: u64, weight: u32, left: u64, divisor: u64) -> Turn
    requires { Turning e weight left divisor }
    ensures { Turned e weight left divisor result.wh result.left }
{
    let t = left + e * weight as u64;
    let wh = (t / divisor) as u32;
    let rest = t % divisor;
    Turn { wh: wh, left: rest }
}

// A reading to be spread over a part of the curve: E over the weight of the whole reading, of which some lies before the part (none, where the reading begins
// with it).
#[derive(Clone, Copy)]
pub struct Spread {
    pub e_wh: u64,
    pub before: u64,
    pub whole: u64,
}

// The reading's growths in a run of the part's hours, added to what the lent hours hold: the run starts behind the first `skip` hours of the part, which weigh
// `skipped`, and is as long as what is lent. The lent hours are of 64 bits: a party's readings may pass 32 bits in an hour before 14 is judged.
pub fn add(s: Spread, part: &[u32], skip: usize, skipped: u64, out: &mut [u64])
    requires part { Part s.e_wh s.before s.whole part.now skip skipped (length out.old) }
    requires room { Room out.old s.e_wh s.before s.whole (at part.now) skip }
    ensures { out.new ≡ figures (length out.old) (grown_from out.old s.e_wh s.before s.whole (at part.now) skip) }
{
    let divisor = divisor_of(s.whole);
    let mut left = product_mod(s.e_wh, s.before + skipped, divisor);
    for i in 0..out.len() {
        let t = hour_of(s.e_wh, part[skip + i], left, divisor);
        out[i] += t.wh as u64;
        left = t.left;
    }
}
