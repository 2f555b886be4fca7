// The GLN of a party (01 "The month file": "GLN 13 ASCII digits"; "The GLN's last digit makes the sum of all digits, weighted 1, 3, 1, 3 .. from the
// right, a multiple of 10"): its test, its number, and the part of a file that holds it.
#![tactic(auto)]

ghost use Rattle.std.specs.Prelude.{◌≡◌};
ghost use Rattle.gln.specs.Promised.{CheckPromised, PartAtPromised};
ghost use Rattle.rules.specs.Gln.{weight_of_position};

// GS1's rule counts the positions of the digits from the right, from 1: position 1 is the check digit. "weighted 1, 3, 1, 3 .. from the right": an odd
// position weighs 1, an even one 3.
fn weight_of_position(position: usize) -> u64
    ensures { result ≡ weight_of_position position }
{
    if position % 2 == 1 {
        return 1;
    }
    3
}

// One pass over the digits, from the first, at position 13, to the check digit, at position 1: the number and the weighted sum grow with each, and the first
// byte that is no digit ends it. GS1's worked example, 6291041500213:
//
//     position   13  12  11  10   9   8   7   6   5   4   3   2   1
//     digit       6   2   9   1   0   4   1   5   0   0   2   1   3
//     weight      1   3   1   3   1   3   1   3   1   3   1   3   1
//     product     6   6   9   3   0  12   1  15   0   0   2   3   3     sum 60, a multiple of 10
pub fn check(part: &[u8]) -> Option<u64>
    ensures { CheckPromised part.now result }
{
    if part.len() != limits::GLN_DIGITS {
        return None;
    }
    let mut number: u64 = 0;
    let mut weighted: u64 = 0;
    for position in (1..limits::GLN_DIGITS + 1).rev() {
        let byte = part[limits::GLN_DIGITS - position];
        if byte < b'0' {
            return None;
        }
        if b'9' < byte {
            return None;
        }
        let digit = (byte - b'0') as u64;
        number = number * 10 + digit;
        weighted += weight_of_position(position) * digit;
    }
    if weighted % 10 != 0 {
        return None;
    }
    Some(number)
}

// The thirteen bytes from a place on, as a part of the file and no copy; an empty part where they run past its end.
pub fn part_at<'a>(file: &'a [u8], at: usize) -> &'a [u8]
    ensures { PartAtPromised file.now at result.now }
{
    if file.len() < limits::GLN_DIGITS {
        return &file[0..0];
    }
    if file.len() - limits::GLN_DIGITS < at {
        return &file[0..0];
    }
    let end = at + limits::GLN_DIGITS;
    &file[at..end]
}
