// THE HOURS PROGRAM: it reads one month file from standard input and prints the reviewer's report of it, which answers her three questions (00) by a line for
// each hour and a line for each party, or `refused N at P`. Its setting is final (02, W1): a month with no 06 records is refused.
//
// What is proved of it: it is safe and ends, given that each read and write returns; and the three parts that it makes for printing, one after the other, are the final
// report of the bytes read, and of an input that is too long that of any bytes so long; and from a reader to a writer whose bytes are known, the
// report of what is read is what is written (`run`). Which bytes standard input gives, and that those for standard output arrive, no contract can say: tests/streams tries it.
#![tactic(auto)]

ghost use Rattle.std.specs.Prelude.{length, ◌≡◌, ◌++◌, OnOk, IfErr, IfSome, IsErrOf};
ghost use Rattle.std.specs.Io.KnownBytes.{Appends, Keeps};
ghost use Rattle.hours.specs.Printed.{Within, printed};
ghost use Rattle.report_text.specs.Lines.{Roomy, first_room, rest_room, parties_room};
ghost use Rattle.rules.specs.HoursReport.{hours_report};
ghost use Rattle.rules.specs.Setting.{final};
ghost use Rattle.standard_input.specs.Known.{Answered, Writes};
ghost use Rattle.standard_input.specs.Reading.{FullyRead, TextOf};

use report_text::Lines;
use setting::Setting;
use standard_input::{Ending, Fault};
use std::io::{Read, Write};
use std::process::ExitCode;

// The most bytes of each part.
const FIRST_ROOM: usize = report_text::FIRST_ROOM;

const REST_ROOM: usize = report_text::REST_ROOM;

const PARTIES_ROOM: usize = report_text::PARTIES_ROOM;

// The buffers for the parts.
fn first_room() -> [u8; FIRST_ROOM]
    ensures { first_room ≡ length result }
{
    [0; FIRST_ROOM]
}

fn rest_room() -> [u8; REST_ROOM]
    ensures { rest_room ≡ length result }
{
    [0; REST_ROOM]
}

fn parties_room() -> [u8; PARTIES_ROOM]
    ensures { parties_room ≡ length result }
{
    [0; PARTIES_ROOM]
}

// A line alone: the first part, and there is no other.
fn alone(bytes: usize) -> Lines
    ensures { result ≡ record { first = bytes; rest = 0; parties = 0 } }
{
    Lines {
        first: bytes,
        rest: 0,
        parties: 0,
    }
}

// The text of a file in three parts at the starts of the buffers: THE FINAL REPORT OF THE FILE. A refusal goes to the line that is printed of it, alone; an
// accepted month's lines are there already.
fn file_text(file: &[u8], first: &mut [u8], rest: &mut [u8], parties: &mut [u8]) -> Lines
    requires { Roomy (length first.old) (length rest.old) (length parties.old) }
    ensures within { Within result first.new rest.new parties.new }
    ensures text { printed result first.new rest.new parties.new ≡ hours_report final file.now }
{
    let reported = report_text::report(file, Setting::Final, first, rest, parties);
    let Ok(lines) = reported else {
        return alone(report_text::refusal_line(reported, first));
    };
    lines
}

// The text of an input in the same parts, by how its reading ended: THE FINAL REPORT OF THE INPUT. Of one that is too long it is the same line, whatever its bytes; one
// that could not be read has none.
fn input_text(
    ending: Ending,
    file: &[u8],
    first: &mut [u8],
    rest: &mut [u8],
    parties: &mut [u8],
) -> Lines
    requires fully_read { FullyRead ending file.now }
    requires roomy { Roomy (length first.old) (length rest.old) (length parties.old) }
    ensures within { Within result first.new rest.new parties.new }
    ensures text { TextOf (hours_report final) ending file.now (printed result first.new rest.new parties.new) }
{
    match ending {
        Ending::Whole => file_text(file, first, rest, parties),
        Ending::TooLong => alone(standard_input::refusal_line(ending, first)),
        Ending::Failed => alone(0),
    }
}

// One part after the other, and none after a part that could not be handed over.
fn print_parts<W: Write>(to: &mut W, first: &[u8], rest: &[u8], parties: &[u8]) -> Result<(), Fault>
    ensures written { OnOk result (Appends (W.contents to.old) (W.contents to.new) (first.now ++ rest.now ++ parties.now)) }
    ensures unwritten { IfErr result (λ fault. fault ≡ Fault.Output) }
{
    standard_input::print(to, first)?;
    standard_input::print(to, rest)?;
    standard_input::print(to, parties)
}

// An input that could be read: its report, or its refusal.
fn print_input<W: Write>(to: &mut W, ending: Ending, file: &[u8]) -> Result<(), Fault>
    requires { FullyRead ending file.now }
    ensures written { OnOk result (Writes (hours_report final) ending file.now (W.contents to.old) (W.contents to.new)) }
    ensures unwritten { IfErr result (λ fault. fault ≡ Fault.Output) }
{
    let mut first = first_room();
    let mut rest = rest_room();
    let mut parties = parties_room();
    let parts = input_text(ending, file, &mut first, &mut rest, &mut parties);
    let a = parts.first;
    let b = parts.rest;
    let c = parts.parties;
    print_parts(to, &first[0..a], &rest[0..b], &parties[0..c])
}

// THE PROGRAM, from a reader and to a writer: of an input that is known, what is written is its report, and nothing else; and of one that could not be read nothing.
fn run<R: Read, W: Write>(from: &mut R, to: &mut W) -> Result<(), Fault>
    ensures reported { OnOk result (IfSome (R.remaining from.old) (λ input. Appends (W.contents to.old) (W.contents to.new) (hours_report final input))) }
    ensures answered { OnOk result (Answered (hours_report final) (W.contents to.old) (W.contents to.new)) }
    ensures unread { IsErrOf result Fault.Input → Keeps (W.contents to.old) (W.contents to.new) }
{
    let mut buffer = standard_input::month_buffer();
    let input = standard_input::read_month(from, &mut buffer);
    let ending = input.ending;
    match ending {
        Ending::Failed => Err(Fault::Input),
        _ => print_input(to, ending, standard_input::bytes_read(&buffer, input)),
    }
}

fn main(rt: HostRuntime) -> ExitCode {
    let ran = run(&mut rt.stdin(), &mut rt.stdout());
    standard_input::exit_code(&rt, "hours", ran)
}
