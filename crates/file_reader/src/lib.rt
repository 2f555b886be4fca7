// "A reader goes through the file record by record" (01 "Expected forms by place"): "A struct holds the file slice and place; two or three thin functions by
// hand call a covered function on slice and cursor." Today's borrow checker covers a struct that holds a slice, so `new`, `next` and `next_at` need no proof by
// hand; the work stands in `step_at`, which takes a plain slice. `file_sections` goes through a file by `next_at`.
#![tactic(auto)]

ghost use Rattle.std.specs.Prelude.{◌≡◌, drop};
ghost use Rattle.file_step.specs.Walk.{Steppable, Stepped};

use answer::Refused;
use file_step::{Step, Walk};

// The file, and the place of the record that is next.
#[derive(Clone, Copy)]
pub struct Reader<'a> {
    pub file: &'a [u8],
    pub at: usize,
}

// The record at a place of a file, judged where the reading stands: order, P and H of the heading, and its own fields.
fn step_at(file: &[u8], at: usize, w: Walk) -> Result<Step, Refused>
    requires { Steppable w (drop at file.now) }
    ensures { Stepped w (drop at file.now) result }
{
    w.step(&file[at..])
}

// A reader at a place of a file.
fn new<'a>(file: &'a [u8], at: usize) -> Reader<'a>
    ensures { (result.file ≡ file.entry) × (result.at ≡ at) }
{
    Reader { file, at }
}

// The record at the reader's place.
fn next<'a>(r: Reader<'a>, w: Walk) -> Result<Step, Refused>
    requires { Steppable w (drop r.at r.file.now) }
    ensures { Stepped w (drop r.entry.at r.entry.file.now) result }
{
    step_at(r.file, r.at, w)
}

// The same by plain parameters: the loop through a file calls this.
pub fn next_at(file: &[u8], at: usize, w: Walk) -> Result<Step, Refused>
    requires { Steppable w (drop at file.now) }
    ensures { Stepped w (drop at file.now) result }
{
    next(new(file, at), w)
}
