// The statement of an input, by how its reading ended, as bytes in a lent buffer: what the statement program, the preview program and the BRP program print. Each
// says its own setting (02, W1: "The statement program keeps final as its setting; a preview program asks for provisional") and who has a line (W5).
#![tactic(auto)]

ghost use Rattle.std.specs.Prelude.{length, ◌≡◌, ◌≤◌, OnOk, IfErr, IfSome, IsErrOf};
ghost use Rattle.std.specs.Io.KnownBytes.{Appends, Keeps};
ghost use Rattle.rules.specs.Statement.{statement_per};
ghost use Rattle.setting.specs.Asked.{asked};
ghost use Rattle.standard_input.specs.Known.{Answered, Writes};
ghost use Rattle.standard_input.specs.Reading.{FullyRead};
ghost use Rattle.statement_input.specs.Inputs.{Printed, Promised};
ghost use Rattle.statement_text.specs.Stating.{per_of, statement_room};

use setting::Setting;
use standard_input::{Ending, Fault};
use statement_text::Per;
use std::io::{Read, Write};

// The most bytes of a statement.
const ROOM: usize = statement_text::STATEMENT_ROOM;

// The buffer for the statement.
pub fn room() -> [u8; ROOM]
    ensures { statement_room ≡ length result }
{
    [0; ROOM]
}

// The text of a file at the start of `out`: THE STATEMENT OF THE FILE. A refusal goes to the line that is printed of it; an accepted month's lines are there already.
fn file_text(file: &[u8], setting: Setting, per: Per, out: &mut [u8]) -> usize
    requires { statement_room ≤ length out.old }
    ensures { Printed (statement_per (per_of per) (asked setting) file.now) out.old result out.new }
{
    let stated = statement_text::statement(file, setting, per, out);
    let Ok(n) = stated else {
        return statement_text::refusal_line(stated, out);
    };
    n
}

// The text of an input at the start of `out`, by how its reading ended: THE STATEMENT OF THE INPUT. Of one that is too long it is the same line, whatever its bytes;
// one that could not be read has none.
pub fn input_text(ending: Ending, file: &[u8], setting: Setting, per: Per, out: &mut [u8]) -> usize
    requires { statement_room ≤ length out.old }
    ensures { Promised setting per ending file.now out.old result out.new }
{
    match ending {
        Ending::Whole => file_text(file, setting, per, out),
        Ending::TooLong => standard_input::refusal_line(ending, out),
        Ending::Failed => 0,
    }
}

// An input that could be read: its statement, or its refusal.
fn print_input<W: Write>(
    to: &mut W,
    ending: Ending,
    file: &[u8],
    setting: Setting,
    per: Per,
) -> Result<(), Fault>
    requires { FullyRead ending file.now }
    ensures written { OnOk result (Writes (statement_per (per_of per) (asked setting)) ending file.now (W.contents to.old) (W.contents to.new)) }
    ensures unwritten { IfErr result (λ fault. fault ≡ Fault.Output) }
{
    let mut out = room();
    let n = input_text(ending, file, setting, per, &mut out);
    standard_input::print(to, &out[0..n])
}

// THE STATEMENT PROGRAM, THE PREVIEW PROGRAM AND THE BRP PROGRAM, from a reader and to a writer: of an input that is known, what is written is its statement, and nothing
// else; of any other, the statement of some bytes that fit some ending of the reading; and of one that could not be read nothing.
pub fn run<R: Read, W: Write>(
    from: &mut R,
    to: &mut W,
    setting: Setting,
    per: Per,
) -> Result<(), Fault>
    ensures reported { OnOk result (IfSome (R.remaining from.old) (λ input. Appends (W.contents to.old) (W.contents to.new) (statement_per (per_of per) (asked setting) input))) }
    ensures answered { OnOk result (Answered (statement_per (per_of per) (asked setting)) (W.contents to.old) (W.contents to.new)) }
    ensures unread { IsErrOf result Fault.Input → Keeps (W.contents to.old) (W.contents to.new) }
{
    let mut buffer = standard_input::month_buffer();
    let input = standard_input::read_month(from, &mut buffer);
    let ending = input.ending;
    match ending {
        Ending::Failed => Err(Fault::Input),
        _ => print_input(
            to,
            ending,
            standard_input::bytes_read(&buffer, input),
            setting,
            per,
        ),
    }
}
