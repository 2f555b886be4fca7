// THE BRP PROGRAM (02, W5: "Our balance responsible customers want their own statement"): it reads one month file from standard input and prints "one line per BRP, in rising
// GLN order, with the statement's columns, between its heading and total lines", or `refused N at P`. Its setting is final: only the preview asks for provisional.
//
// What is proved of it: it is safe and ends, given that each read and write returns; and the text that it makes for printing is the final BRP
// statement of the bytes read, and of an input that is too long that of any bytes so long; and from a reader to a writer whose bytes are known, that statement of what
// is read is what is written (`run`). Which bytes standard input gives, and that those for standard output arrive, no contract can say: tests/streams tries it.
#![tactic(auto)]

ghost use Rattle.std.specs.Prelude.{OnOk, IfSome, IsErrOf};
ghost use Rattle.std.specs.Io.KnownBytes.{Appends, Keeps};
ghost use Rattle.rules.specs.Setting.{final};
ghost use Rattle.rules.specs.Statement.{brp_statement};
ghost use Rattle.standard_input.specs.Known.{Answered};

use setting::Setting;
use standard_input::Fault;
use statement_text::Per;
use std::io::{Read, Write};
use std::process::ExitCode;

// THE PROGRAM, from a reader and to a writer: of an input that is known, what is written is its statement, and nothing else; and of one that could not be read nothing.
fn run<R: Read, W: Write>(from: &mut R, to: &mut W) -> Result<(), Fault>
    ensures reported { OnOk result (IfSome (R.remaining from.old) (λ input. Appends (W.contents to.old) (W.contents to.new) (brp_statement final input))) }
    ensures answered { OnOk result (Answered (brp_statement final) (W.contents to.old) (W.contents to.new)) }
    ensures unread { IsErrOf result Fault.Input → Keeps (W.contents to.old) (W.contents to.new) }
{
    statement_input::run(from, to, Setting::Final, Per::Brp)
}

fn main(rt: HostRuntime) -> ExitCode {
    let ran = run(&mut rt.stdin(), &mut rt.stdout());
    standard_input::exit_code(&rt, "brp", ran)
}
