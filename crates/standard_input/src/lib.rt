// Standard input and output, as the programs use them: a month file is read piece by piece, however many reads it takes, a text is printed, and a stream that fails
// ends the program with status 1.
//
// What is proved: each function is safe and ends, given that each read returns; what was read lies within the buffer, and fills it where the input is told as too
// long; of a reader whose bytes are known, as those of a slice are, what was read is those bytes, all of them; and the line that is printed of an input that is too
// long is 1 at 0. What no contract can say: which bytes standard input gives. tests/streams tries that on the running programs.
#![tactic(auto)]

ghost use Rattle.std.specs.Prelude.{length, take, ◌≡◌, ◌≤◌, OnOk, IfErr};
ghost use Rattle.std.specs.Io.KnownBytes.{Appends};
ghost use Rattle.std.specs.Process.{exit_status};
ghost use Rattle.rules.specs.Limits.{longest_file};
ghost use Rattle.standard_input.specs.Known.{PieceOf, PastOf, InputRead};
ghost use Rattle.standard_input.specs.Reading.{PieceWithin, Full, FullyRead, ended, ended_text, status_of};
ghost use Rattle.text.specs.Text.{LinePut, longest_refusal_line};

use answer::Refusal;
use std::fmt;
use std::io::{Read, Write};
use std::process::ExitCode;

// "At most 65,536 bytes".
const LONGEST_FILE: usize = limits::LONGEST_FILE;

// What one read gives: bytes at the start of the part it was lent, the end of the input, or a failure.
#[derive(Clone, Copy)]
enum Piece {
    Bytes(usize),
    End,
    Failed,
}

// How the reading ends: with the end of the input, with a byte more than the buffer holds, or with a failure.
#[derive(Clone, Copy)]
pub enum Ending {
    Whole,
    TooLong,
    Failed,
}

// Which stream failed a program: its input could not be read, or its answer not be written.
#[derive(Clone, Copy, Debug, PartialEq, Eq)]
pub enum Fault {
    Input,
    Output,
}

impl fmt::Display for Fault {
    fn fmt<W: fmt::Write>(&self, f: &mut fmt::Formatter<W>) -> fmt::Result {
        match self {
            Fault::Input => write!(f, "standard input cannot be read"),
            Fault::Output => write!(f, "standard output cannot be written"),
        }
    }
}

// So many bytes of the buffer are filled, and how that ended. A count of its own: it is within the buffer however the reading ended.
#[derive(Clone, Copy)]
pub struct Input {
    pub filled: usize,
    pub ending: Ending,
}

// One read into a part that is not empty. Only an answer of 0 is the end of the input; an error is a failure for whatever reason. (A read is interrupted only by a
// signal that the program handles, and it handles none.)
fn read_piece<R: Read>(from: &mut R, part: &mut [u8]) -> Piece
    ensures within { PieceWithin result (length part.new) }
    ensures known { PieceOf result (R.remaining from.old) (R.remaining from.new) part.new }
{
    match from.read(part) {
        Ok(0) => Piece::End,
        Ok(n) => Piece::Bytes(n),
        Err(_) => Piece::Failed,
    }
}

// After a full buffer: a byte more is an input that is too long.
fn read_past<R: Read>(from: &mut R) -> Ending
    ensures { PastOf result (R.remaining from.old) }
{
    let mut more = [0u8; 1];
    let piece = read_piece(from, &mut more);
    match piece {
        Piece::Bytes(_) => Ending::TooLong,
        Piece::End => Ending::Whole,
        Piece::Failed => Ending::Failed,
    }
}

// The buffer for the longest file.
pub fn month_buffer() -> [u8; LONGEST_FILE]
    ensures { longest_file ≡ length result }
{
    [0; LONGEST_FILE]
}

// "Reads one month file from standard input.": piece by piece, however it arrives, until it ends or is too long.
pub fn read_month<R: Read>(from: &mut R, buffer: &mut [u8]) -> Input
    ensures within { result.filled ≤ length buffer.new }
    ensures full { Full result.ending result.filled (length buffer.new) }
    ensures known { InputRead result.ending (R.remaining from.old) (take result.filled buffer.new) }
{
    let mut filled: usize = 0;
    while filled < buffer.len() {
        let piece = read_piece(from, &mut buffer[filled..]);
        match piece {
            Piece::Bytes(n) => {
                filled += n;
            }
            Piece::End => {
                return Input {
                    filled: filled,
                    ending: Ending::Whole,
                };
            }
            Piece::Failed => {
                return Input {
                    filled: filled,
                    ending: Ending::Failed,
                };
            }
        }
    }
    let ending = read_past(from);
    Input {
        filled: filled,
        ending: ending,
    }
}

// The bytes that were read, at the start of a buffer for the longest file: what a program then makes its text of.
pub fn bytes_read<'a>(buffer: &'a [u8], input: Input) -> &'a [u8]
    requires filled_in_bounds { input.filled ≤ length buffer.now }
    requires whole { Full input.ending input.filled (length buffer.now) }
    requires buffer_len { length buffer.now ≡ longest_file }
    ensures bytes { result.now ≡ take input.filled buffer.now }
    ensures full { FullyRead input.ending result.now }
{
    let filled = input.filled;
    &buffer[0..filled]
}

// "An empty or too long file is refused before all else, place 0": the line of that refusal at the start of `out`, and its length, for the programs. An input that
// was read whole has no refusal of its own, and one that could not be read no answer.
pub fn refusal_line(ending: Ending, out: &mut [u8]) -> usize
    requires { longest_refusal_line ≤ length out.old }
    ensures { LinePut (ended_text (ended ending)) out.old 0 longest_refusal_line out.new result }
{
    match ending {
        Ending::Whole => 0,
        Ending::TooLong => text::put_refusal(Refusal::FileFault, 0, out),
        Ending::Failed => 0,
    }
}

// Prints all of a text, however many writes it takes.
pub fn print<W: Write>(to: &mut W, text: &[u8]) -> Result<(), Fault>
    ensures written { OnOk result (Appends (W.contents to.old) (W.contents to.new) text.now) }
    ensures unwritten { IfErr result (λ fault. fault ≡ Fault.Output) }
{
    match to.write_all(text) {
        Ok(()) => Ok(()),
        Err(_) => Err(Fault::Output),
    }
}

// How a program ends: with status 0, or where a stream failed it with 1, and says so on standard error; where that fails too, there is nowhere left to say it. There is
// then no answer, or a part of one, on standard output.
pub fn exit_code(rt: &impl Eprint, program: &str, ran: Result<(), Fault>) -> ExitCode
    ensures { exit_status result ≡ status_of ran }
{
    match ran {
        Ok(()) => ExitCode::from(0),
        Err(fault) => {
            let _ = eprintln!(rt; "{program}: {fault}");
            ExitCode::from(1)
        }
    }
}
