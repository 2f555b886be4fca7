// The largest-remainder rule alone (01 "Distributed consumption": "go one each to the parties with the largest remainders; of equal remainders the lower party
// number comes first"; 02, W2: "one each to the largest remainders, lower party number first"), over any remainders and any count to be handed out. Nothing here
// knows of shares, of W, of hours or of øre: `distribute` and `invoice` do.
#![tactic(auto)]

ghost use Rattle.std.specs.Prelude.{◌≡◌, ◌≤◌};
ghost use Rattle.apportion.specs.Filled.{Filled};
ghost use Rattle.apportion.specs.Tests.{below_number, same_number, before_number};
ghost use Rattle.apportion.specs.Threshold.{how_many_above, Threshold, Cut};
ghost use Rattle.rules.specs.LargestRemainder.{one_each};
ghost use Rattle.rules.specs.Limits.{most_parties};
ghost use Rattle.rules.specs.Words.{at};

// 1 where a is below b, else 0.
fn below(a: u64, b: u64) -> u64
    ensures { result ≡ below_number a b }
{
    (a < b) as u64
}

// 1 where they are the same, else 0.
fn same(a: u64, b: u64) -> u64
    ensures { result ≡ same_number a b }
{
    (a == b) as u64
}

// "the largest remainders ..; of equal remainders the lower party number comes first": 1 where the other comes before, else 0.
fn comes_before(other: u64, own: u64, lower: bool) -> u64
    ensures { result ≡ before_number other own lower }
{
    if own < other {
        return 1;
    }
    if other < own {
        return 0;
    }
    lower as u64
}

// The bits of both: at least as much as either.
fn bits_of_both(a: u64, b: u64) -> u64
    ensures { (a ≤ result) × (b ≤ result) }
{
    a | b
}

// A value that none of the first n is above: all their bits. It is below twice the largest, and a fourth as dear to find.
fn bound(rest: &[u64; 64], n: usize) -> u64
    requires { n ≤ most_parties }
    ensures { how_many_above n (at rest.now) result ≡ 0 }
{
    let mut bits = 0;
    for i in 0..n {
        bits = bits_of_both(bits, rest[i]);
    }
    bits
}

// How many of the first n have more than v. From the last to the first: upwards the compiler takes two at a time, which costs it twice as much.
fn above(rest: &[u64; 64], n: usize, v: u64) -> u64
    requires { n ≤ most_parties }
    ensures { result ≡ how_many_above n (at rest.now) v }
{
    let mut over = 0;
    for i in (0..n).rev() {
        over += below(v, rest[i]);
    }
    over
}

// A value that parts those who have one from those who have none, by halving. It stops where just `left` have more: of remainders that differ, that is so
// long before the halves are single values.
fn threshold(rest: &[u64; 64], n: usize, left: u64) -> u64
    requires { n ≤ most_parties }
    ensures { Threshold n (at rest.now) left result }
{
    let mut low = 0;
    let mut high = bound(rest, n);
    while low < high {
        let middle = low + (high - low) / 2;
        let over = above(rest, n, middle);
        if over == left {
            return middle;
        }
        if left < over {
            low = middle + 1;
        } else {
            high = middle;
        }
    }
    high
}

// "of equal remainders the lower party number comes first": the number below which those have one that have just v, where `spare` of them do.
fn cut(rest: &[u64; 64], n: usize, v: u64, spare: u64) -> usize
    requires { n ≤ most_parties }
    ensures { Cut n (at rest.now) v spare result }
{
    let mut given = 0;
    for i in 0..n {
        if given == spare {
            return i;
        }
        given += same(rest[i], v);
    }
    n
}

// "The Wh still left over go one each to the parties with the largest remainders": 1 for each of the `left` of n with the largest `rest`, else 0. They are
// those that come before a place in that order, which is found without comparing each with all. Any remainders serve, of Wh, of øre or of anything else, and
// any count: where there are fewer than `left`, each has one.
pub fn one_each(rest: &[u64; 64], n: usize, left: u64) -> [u64; 64]
    requires { n ≤ most_parties }
    ensures { Filled 0 (one_each n (at rest.now) left) n result }
{
    let v = threshold(rest, n, left);
    let end = cut(rest, n, v, left - above(rest, n, v));
    let mut extra = [0u64; 64];
    for i in 0..n {
        extra[i] = comes_before(rest[i], v, i < end);
    }
    extra
}
