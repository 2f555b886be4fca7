// The lines of the statement as bytes in a lent buffer (01 "The statement program"): the heading line, with what W1 of 02 ends it with, and a line of columns
// for each party and for the total. Each function writes from a place on and answers the place after what it wrote.
#![tactic(auto)]

ghost use Rattle.std.specs.Prelude.{◌+◌, ◌≤◌, length};
ghost use Rattle.rules.specs.Statement.{heading_text, columns_line};
ghost use Rattle.statement_lines.specs.Parts.{area_month, counted, ending, name_energies, resulting};
ghost use Rattle.statement_lines.specs.Rooms.{area_month_room, counts_room, ending_room, heading_room, name_energies_room, results_room, columns_room};
ghost use Rattle.text.specs.Text.{Put, longest_name};

use text::{put_bytes, put_column, put_energies, put_unsigned, put_word_number, put_word_width};

// The most bytes of a heading line and of a line of columns, as specs/Rooms.antt adds them up: a caller lends no less.
pub const HEADING_ROOM: usize = 132;

pub const COLUMNS_ROOM: usize = 119;

// "area (three digits), year-month"
fn put_area_month(out: &mut [u8], place: usize, area: u64, year: u64, month: u64) -> usize
    requires { place + area_month_room ≤ length out.old }
    ensures text { Put (area_month area year month) out.old place out.new result }
    ensures within { result ≤ place + area_month_room }
{
    let after_area = put_word_width(out, place, b"area ", 3, area);
    let after_year = put_unsigned(out, after_area, year);
    put_word_width(out, after_year, b"-", 2, month)
}

// "H, P and the number of applied hours with status 2"
fn put_counts(out: &mut [u8], place: usize, hours: u64, parties: u64, estimated: u64) -> usize
    requires { place + counts_room ≤ length out.old }
    ensures text { Put (counted hours parties estimated) out.old place out.new result }
    ensures within { result ≤ place + counts_room }
{
    let after_hours = put_word_number(out, place, b" hours ", hours);
    let after_parties = put_word_number(out, after_hours, b" parties ", parties);
    put_word_number(out, after_parties, b" estimated ", estimated)
}

// W1: "where there are no 06 records, ends its heading line with a space and `provisional`"; and the newline. By the number of 06 records.
fn put_ending(out: &mut [u8], place: usize, refixed: usize) -> usize
    requires { place + ending_room ≤ length out.old }
    ensures text { Put (ending refixed) out.old place out.new result }
    ensures within { result ≤ place + ending_room }
{
    if refixed == 0 {
        return put_bytes(out, place, b" provisional\n");
    }
    put_bytes(out, place, b"\n")
}

// THE HEADING LINE: "a heading line with area (three digits), year-month, H, P and the number of applied hours with status 2", and its ending by the number of
// 06 records.
pub fn heading_line(
    out: &mut [u8],
    place: usize,
    area: u16,
    year: u16,
    month: u8,
    hours: u16,
    parties: u8,
    estimated: usize,
    refixed: usize,
) -> usize
    requires { place + heading_room ≤ length out.old }
    ensures text { Put (heading_text area year month hours parties estimated refixed) out.old place out.new result }
    ensures within { result ≤ place + heading_room }
{
    let counts = put_area_month(out, place, area as u64, year as u64, month as u64);
    let ending = put_counts(out, counts, hours as u64, parties as u64, estimated as u64);
    put_ending(out, ending, refixed)
}

// The first columns: "GLN, distributed, periodised"
fn put_name_energies(
    out: &mut [u8],
    place: usize,
    name: &[u8],
    distributed_wh: i64,
    periodised_wh: u64,
) -> usize
    requires { (length name.now ≤ longest_name) × (place + name_energies_room ≤ length out.old) }
    ensures text { Put (name_energies name.now distributed_wh periodised_wh) out.old place out.new result }
    ensures within { result ≤ place + name_energies_room }
{
    let after_name = put_bytes(out, place, name);
    put_energies(out, after_name, distributed_wh, periodised_wh)
}

// The last columns: "loss, difference .. and invoice øre", and the newline
fn put_results(out: &mut [u8], place: usize, loss_wh: i64, difference_wh: i64, ore: i64) -> usize
    requires { place + results_room ≤ length out.old }
    ensures text { Put (resulting loss_wh difference_wh ore) out.old place out.new result }
    ensures within { result ≤ place + results_room }
{
    let after_loss = put_column(out, place, loss_wh);
    let after_difference = put_column(out, after_loss, difference_wh);
    let after_ore = put_column(out, after_difference, ore);
    put_bytes(out, after_ore, b"\n")
}

// A LINE OF COLUMNS, of a party by its GLN or of the total by that word: "distributed, periodised, loss, difference (month sums in Wh) and invoice øre"
pub fn columns_line(
    out: &mut [u8],
    place: usize,
    name: &[u8],
    distributed_wh: i64,
    periodised_wh: u64,
    loss_wh: i64,
    difference_wh: i64,
    ore: i64,
) -> usize
    requires { (length name.now ≤ longest_name) × (place + columns_room ≤ length out.old) }
    ensures text { Put (columns_line name.now distributed_wh periodised_wh loss_wh difference_wh ore) out.old place out.new result }
    ensures within { result ≤ place + columns_room }
{
    let results = put_name_energies(out, place, name, distributed_wh, periodised_wh);
    put_results(out, results, loss_wh, difference_wh, ore)
}
