// How far each party's running sum is from its exact share, hour by hour (00 "Has any supplier been pushed the same way all month?"): the smallest and the
// largest so far, in W-ths of a Wh. The carries of an hour tell the distance without the running sum: a party that has one of the Wh left over is W less its
// remainder above, another its remainder below.
#![tactic(auto)]

ghost use Rattle.std.specs.Prelude.{◌≡◌, ℕ, ◌≤◌, ◌<◌, pos};
ghost use Rattle.apportion.specs.Filled.{Filled};
ghost use Rattle.distribute.specs.Good.{Good};
ghost use Rattle.report_distances.specs.Extremes.{distance_of, Near, distance_by, Widened, no_distances, With};
ghost use Rattle.rules.specs.Limits.{most_parties};
ghost use Rattle.rules.specs.Words.{at};

use distribute::Carries;

// The smallest and the largest distance of each party so far.
#[derive(Clone, Copy)]
pub struct Distances {
    pub smallest: [i64; 64],
    pub largest: [i64; 64],
}

// Of one party, in W-ths of a Wh: above 0 where it has too much, below 0 where it has too little.
fn distance(extra: u64, remainder: u64, w: u64) -> i64
    requires { Near extra remainder w }
    ensures { result ≡ distance_of extra remainder w }
{
    (extra * w) as i64 - remainder as i64
}

// Of all parties.
fn distances_of(extra: &[u64; 64], remainder: &[u64; 64], n: usize, w: u64) -> [i64; 64]
    requires { (n ≤ most_parties) × ((k : ℕ) → k < n → Near (at extra.now k) (at remainder.now k) w) }
    ensures { Filled (pos 0) (distance_by extra.now remainder.now w) n result }
{
    let mut here = [0i64; 64];
    for i in 0..n {
        here[i] = distance(extra[i], remainder[i], w);
    }
    here
}

// The smaller and the larger of the kept and the hour's, party by party.
fn widened(least: &[i64; 64], most: &[i64; 64], here: &[i64; 64], n: usize) -> Distances
    requires { n ≤ most_parties }
    ensures { Widened least.now most.now here.now n result }
{
    let mut smallest = [0i64; 64];
    let mut largest = [0i64; 64];
    for i in 0..n {
        smallest[i] = least[i].min(here[i]);
        largest[i] = most[i].max(here[i]);
    }
    Distances { smallest, largest }
}

// Before the first hour there is no distance.
pub fn none() -> Distances
    ensures { result ≡ no_distances }
{
    Distances {
        smallest: [0i64; 64],
        largest: [0i64; 64],
    }
}

impl Distances {
    // One hour more, whose carries these are. Of the first hour its own distances are the smallest and the largest.
    pub fn with(self, carries: Carries, first: bool) -> Distances
        requires { Good carries }
        ensures { With self carries first result }
    {
        let n = carries.parties;
        let w = carries.w;
        let extra = carries.extra;
        let remainder = carries.remainder;
        let here = distances_of(&extra, &remainder, n, w);
        if first {
            return Distances {
                smallest: here,
                largest: here,
            };
        }
        let least = self.smallest;
        let most = self.largest;
        widened(&least, &most, &here, n)
    }
}
