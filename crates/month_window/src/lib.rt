// The periodised consumption of all parties in a window of hours (01 "Periodised consumption"; H2 6.2). The readings are gone through once for a window; of
// each the run of its hours that lies in it is worked out, what the hours before that run weigh being a difference of two of the curve's beginnings.
#![tactic(auto)]

ghost use Rattle.std.specs.Prelude.{◌≡◌, ◌+◌, ◌*◌, ◌^◌, ◌<◌, length};
ghost use Rattle.month_window.specs.Window.{Asked, Window, Taken, Added};
ghost use Rattle.record.specs.Record.{reading_of};
ghost use Rattle.rules.specs.Month.{month_of};

use file_sections::Sections;
use record::Reading;

// Where a party's k-th hour of the window stands: party after party, each with a place for every hour.
fn slot(party: u8, hours: usize, k: usize) -> usize
    requires { party * hours + k < 2 ^ 64 }
    ensures { result ≡ party * hours + k }
{
    party as usize * hours + k
}

// One reading, in the run of its hours that lies in the window. "The reading's a..b part of the curve slice is handed to the periodisation function as a slice of
// its own" (01 "Expected forms by place"): the part is all of the reading in this month, whatever of it the window has. What lies before the part, and what the
// whole reading weighs, its spread says.
fn add_reading(
    x: Reading,
    curve: &[u32],
    beginnings: &[u64],
    start: usize,
    hours: usize,
    out: &mut [u64],
)
    requires { Taken (reading_of x) curve.now beginnings.now start hours out.old }
    ensures { Added (reading_of x) curve.now start hours out.old out.new }
{
    let a = x.a as usize;
    let b = x.b as usize;
    let begin = a.max(start);
    let end = b.min(start + hours);
    if begin < end {
        let low = slot(x.party, hours, begin - start);
        let high = slot(x.party, hours, end - start);
        let own = month_series::weight_between(beginnings, a, b);
        let skipped = month_series::weight_between(beginnings, a, begin);
        periodise::add(
            month_series::spread_of(x, own),
            &curve[a..b],
            begin - a,
            skipped,
            &mut out[low..high],
        );
    }
}

// The window: all readings, each behind the bytes of the one before it.
pub fn window(
    file: &[u8],
    s: Sections,
    curve: &[u32],
    beginnings: &[u64],
    start: usize,
    hours: usize,
    out: &mut [u64],
)
    requires { Asked file.now s curve.now beginnings.now start hours (length out.old) }
    ensures { Window (month_of file.now) start hours out.new }
{
    out.fill(0);
    let readings = s.readings;
    let mut place = s.readings_at;
    for j in 0..readings {
        let x = file_fields::reading(file, place);
        add_reading(x, curve, beginnings, start, hours, out);
        place += record::reading_size(x);
    }
}
