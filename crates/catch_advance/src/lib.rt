// One step of a job: how far it went, and what every kind of step is made of.
#![tactic(auto)]

ghost use Rattle.std.specs.Prelude.{◌+◌, ◌≤◌, length};
ghost use Rattle.catch_lines.specs.Lines.{line_room};
ghost use Rattle.catch_advance.specs.Advancing.{Refuses, Waits, Stays};

use catch_lines::put_refusal;
use catch_progress::Progress;
use promises::refusal::{Numbered, Refusal};

// Where the output ends, and how far the step went.
#[derive(Clone, Copy)]
pub struct Advance {
    pub at: usize,
    pub progress: Progress,
}

// The run ends in a refusal.
pub fn refuse<E: Numbered>(out: &mut [u8], at: usize, refusal: E) -> Advance
    requires { at + line_room ≤ length out.old }
    ensures { Refuses (E.its_number refusal) out.old at out.new result }
{
    let end = put_refusal(out, at, refusal);
    Advance {
        at: end,
        progress: Progress::Ended,
    }
}

// More bytes are needed.
pub fn wait(at: usize) -> Advance
    ensures { Waits at result }
{
    Advance {
        at,
        progress: Progress::More,
    }
}

// A command that is not there whole: the stream is refused where it ends, else more bytes are needed.
pub fn wait_or_refuse(out: &mut [u8], at: usize, ended: bool) -> Advance
    requires { at + line_room ≤ length out.old }
    ensures { Stays ended out.old at out.new result }
{
    if ended {
        return refuse(out, at, Refusal::JobStream);
    }
    wait(at)
}
