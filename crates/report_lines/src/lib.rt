// The lines of the reviewer's report as bytes in a lent buffer (00, her three questions; the rules' HoursReport): a line for each hour and a line for each
// party. Each function writes from a place on and answers the place after what it wrote.
#![tactic(auto)]

ghost use Rattle.std.specs.Prelude.{◌++◌, ◌+◌, ◌≤◌, length};
ghost use Rattle.report_lines.specs.HourText.{hour_text};
ghost use Rattle.report_lines.specs.Rooms.{status_word_room, hour_statuses_room, series_room, hour_room, fraction_room, distances_room};
ghost use Rattle.rules.specs.HoursReport.{status_word, statuses_text, series_text, fraction, distances_text};
ghost use Rattle.rules.specs.Words.{ascii};
ghost use Rattle.text.specs.Text.{Put, longest_name};

// The most bytes of an hour's line and of a party's, as specs/Rooms.antt adds them up: a caller lends no less.
pub const HOUR_ROOM: usize = 167;

pub const DISTANCES_ROOM: usize = 98;

// A column: a space, and then a status in words.
fn put_status_word(out: &mut [u8], place: usize, status: u8) -> usize
    requires { place + status_word_room ≤ length out.old }
    ensures text { Put (ascii " " ++ status_word status) out.old place out.new result }
    ensures within { result ≤ place + status_word_room }
{
    if status == limits::ESTIMATED {
        return text::put_bytes(out, place, b" estimated");
    }
    text::put_bytes(out, place, b" measured")
}

// "Which hours were measured?": the hour and the status of its fixed and of its applied figure.
fn put_hour_statuses(
    out: &mut [u8],
    place: usize,
    hour: u64,
    fixed_status: u8,
    applied_status: u8,
) -> usize
    requires { place + hour_statuses_room ≤ length out.old }
    ensures text { Put (statuses_text hour fixed_status applied_status) out.old place out.new result }
    ensures within { result ≤ place + hour_statuses_room }
{
    let after_hour = text::put_number(out, place, hour);
    let after_fixed = put_status_word(out, after_hour, fixed_status);
    put_status_word(out, after_fixed, applied_status)
}

// Fixed residual, applied residual and curve number.
fn put_series(
    out: &mut [u8],
    place: usize,
    fixed_wh: u64,
    applied_wh: u64,
    curve_number: u64,
) -> usize
    requires { place + series_room ≤ length out.old }
    ensures text { Put (series_text fixed_wh applied_wh curve_number) out.old place out.new result }
    ensures within { result ≤ place + series_room }
{
    let after_fixed = text::put_unsigned(out, place, fixed_wh);
    let after_applied = text::put_unsigned(out, after_fixed, applied_wh);
    text::put_unsigned(out, after_applied, curve_number)
}

// THE LINE OF AN HOUR, which ends with "Do the suppliers' parts add up ..?": the sum of the distributed, the sum of the periodised, and the loss.
pub fn hour_line(
    out: &mut [u8],
    place: usize,
    hour: usize,
    fixed_status: u8,
    applied_status: u8,
    fixed_wh: u32,
    applied_wh: u32,
    curve_number: u32,
    distributed_wh: i64,
    periodised_wh: u64,
    loss_wh: i64,
) -> usize
    requires { place + hour_room ≤ length out.old }
    ensures text { Put (hour_text hour fixed_status applied_status fixed_wh applied_wh curve_number distributed_wh periodised_wh loss_wh) out.old place out.new result }
    ensures within { result ≤ place + hour_room }
{
    let series = put_hour_statuses(out, place, hour as u64, fixed_status, applied_status);
    let parts = put_series(
        out,
        series,
        fixed_wh as u64,
        applied_wh as u64,
        curve_number as u64,
    );
    let loss = text::put_energies(out, parts, distributed_wh, periodised_wh);
    let after_loss = text::put_column(out, loss, loss_wh);
    text::put_bytes(out, after_loss, b"\n")
}

// A column: a space, and then an exact fraction n/W of a Wh.
fn put_fraction(out: &mut [u8], place: usize, n: i64, w: u64) -> usize
    requires { place + fraction_room ≤ length out.old }
    ensures text { Put (ascii " " ++ fraction n w) out.old place out.new result }
    ensures within { result ≤ place + fraction_room }
{
    let after_n = text::put_column(out, place, n);
    text::put_word_number(out, after_n, b"/", w)
}

// THE LINE OF A PARTY: "Has any supplier been pushed the same way ..?": its GLN, and the smallest and the largest distance in the month.
pub fn distances_line(
    out: &mut [u8],
    place: usize,
    name: &[u8],
    smallest: i64,
    largest: i64,
    w: u64,
) -> usize
    requires { (length name.now ≤ longest_name) × (place + distances_room ≤ length out.old) }
    ensures text { Put (distances_text name.now smallest largest w) out.old place out.new result }
    ensures within { result ≤ place + distances_room }
{
    let after_name = text::put_bytes(out, place, name);
    let after_smallest = put_fraction(out, after_name, smallest, w);
    let after_largest = put_fraction(out, after_smallest, largest, w);
    text::put_bytes(out, after_largest, b"\n")
}
