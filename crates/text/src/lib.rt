// Texts as bytes in a lent buffer (01 "The statement program"): numbers, words with their numbers, columns, and the refusal line. Each function writes from a
// place on and answers the place after what it wrote.
#![tactic(auto)]

ghost use Rattle.std.specs.Prelude.{◌∷◌, [], ◌++◌, ◌≡◌, ◌+◌, ◌%◌, ◌≤◌, ◌<◌, nat_abs, length};
ghost use Rattle.answer.specs.Said.{named};
ghost use Rattle.rules.specs.Statement.{decimal, signed_decimal, digits_of_width, refusal_line};
ghost use Rattle.rules.specs.Words.{ascii};
ghost use Rattle.text.specs.Text.{Put, most_digits, column_room, energies_room, longest_refusal_line};

use answer::Refusal;

// The last digit of a number.
fn put_digit(out: &mut [u8], place: usize, n: u64) -> usize
    requires { place < length out.old }
    ensures { Put ((48 + n % 10) ∷ []) out.old place out.new result }
{
    out[place] = b'0' + (n % 10) as u8;
    place + 1
}

// "Numbers are printed without leading zeros, most significant digit first": the number divided by ten, then its last digit.
pub fn put_number(out: &mut [u8], place: usize, n: u64) -> usize
    requires { place + length (decimal n) ≤ length out.old }
    ensures { Put (decimal n) out.old place out.new result }
{
    if n < 10 {
        return put_digit(out, place, n);
    }
    let last = put_number(out, place, n / 10);
    put_digit(out, last, n)
}

// "area (3 digits), month (2) .. keep theirs": so many digits, zeros before the number.
fn put_width(out: &mut [u8], place: usize, width: usize, n: u64) -> usize
    requires { place + width ≤ length out.old }
    ensures { Put (digits_of_width width n) out.old place out.new result }
{
    if width < 1 {
        return place;
    }
    let units = put_width(out, place, width - 1, n / 10);
    put_digit(out, units, n)
}

// Bytes as they are.
pub fn put_bytes(out: &mut [u8], place: usize, text: &[u8]) -> usize
    requires { place + length text.now ≤ length out.old }
    ensures { Put text.now out.old place out.new result }
{
    let end = place + text.len();
    out[place..end].copy_from_slice(text);
    end
}

// "a minus before negatives", and none before 0
fn put_signed(out: &mut [u8], place: usize, z: i64) -> usize
    requires { place + most_digits ≤ length out.old }
    ensures text { Put (signed_decimal z) out.old place out.new result }
    ensures within { result ≤ place + most_digits }
{
    let n = z.unsigned_abs();
    if z < 0 {
        let digits = put_bytes(out, place, b"-");
        return put_number(out, digits, n);
    }
    put_number(out, place, n)
}

// A word, and then a number: as it is, or with so many digits.
pub fn put_word_number(out: &mut [u8], place: usize, word: &[u8], n: u64) -> usize
    requires { place + length word.now + most_digits ≤ length out.old }
    ensures text { Put (word.now ++ decimal n) out.old place out.new result }
    ensures within { result ≤ place + length word.now + most_digits }
{
    let digits = put_bytes(out, place, word);
    put_number(out, digits, n)
}

pub fn put_word_width(out: &mut [u8], place: usize, word: &[u8], width: usize, n: u64) -> usize
    requires { place + length word.now + width ≤ length out.old }
    ensures text { Put (word.now ++ digits_of_width width n) out.old place out.new result }
    ensures within { result ≤ place + length word.now + width }
{
    let digits = put_bytes(out, place, word);
    put_width(out, digits, width, n)
}

// A column: a space, and then a number with its sign.
pub fn put_column(out: &mut [u8], place: usize, z: i64) -> usize
    requires { place + column_room ≤ length out.old }
    ensures text { Put (ascii " " ++ signed_decimal z) out.old place out.new result }
    ensures within { result ≤ place + column_room }
{
    let number = put_bytes(out, place, b" ");
    put_signed(out, number, z)
}

// And of a number that is never negative.
pub fn put_unsigned(out: &mut [u8], place: usize, n: u64) -> usize
    requires { place + column_room ≤ length out.old }
    ensures text { Put (ascii " " ++ decimal n) out.old place out.new result }
    ensures within { result ≤ place + column_room }
{
    put_word_number(out, place, b" ", n)
}

// Two columns: the distributed energy, of either sign, and the periodised.
pub fn put_energies(out: &mut [u8], place: usize, distributed_wh: i64, periodised_wh: u64) -> usize
    requires { place + energies_room ≤ length out.old }
    ensures text { Put (ascii " " ++ signed_decimal distributed_wh ++ ascii " " ++ decimal periodised_wh) out.old place out.new result }
    ensures within { result ≤ place + energies_room }
{
    let after_distributed = put_column(out, place, distributed_wh);
    put_unsigned(out, after_distributed, periodised_wh)
}

// THE REFUSAL LINE: "On refusal it prints one line, `refused N at P`." It stands at the start of a buffer that has room for the longest.
pub fn put_refusal(refusal: Refusal, place: usize, out: &mut [u8]) -> usize
    requires { longest_refusal_line ≤ length out.old }
    ensures text { Put (refusal_line (named refusal) place) out.old 0 out.new result }
    ensures within { result ≤ longest_refusal_line }
{
    let number = refusal.number() as u64;
    let after_number = put_word_number(out, 0, b"refused ", number);
    let after_place = put_word_number(out, after_number, b" at ", place as u64);
    put_bytes(out, after_place, b"\n")
}
