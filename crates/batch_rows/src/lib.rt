// The answer for a read written as a row of eight numbers.
#![tactic(auto)]

ghost use Rattle.std.specs.Prelude.{◌≡◌, ◌+◌, ◌≤◌, length};
ghost use Rattle.promises.specs.Refusal.{refused, accepted};
ghost use Rattle.buffers.specs.Placed.{placed};
ghost use Rattle.map_answers.specs.Answer.{answer_by, row, state_number};
ghost use Rattle.batch_rows.specs.Rows.{row_numbers};

use buffers::write_four;
use map_answers::answer::{Mapping, state_number};
use promises::refusal::Numbered;

// Writes the row of a refusal.
fn write_refused<E: Numbered>(rows: &mut [u64], at: usize, refusal: E)
    requires { at + 8 ≤ length rows.old }
    ensures { rows.new ≡ placed at (row_numbers (refused (E.its_number refusal))) rows.old }
{
    write_four(rows, at, refusal.number(), 0, 0, 0);
    write_four(rows, at + 4, 0, 0, 0, 0);
}

// Writes the row of a mapped read.
fn write_mapped(rows: &mut [u64], at: usize, m: Mapping)
    requires { at + 8 ≤ length rows.old }
    ensures { rows.new ≡ placed at (row_numbers (accepted (row (state_number m.state) m.groups m.work))) rows.old }
{
    let work = m.work;
    write_four(
        rows,
        at,
        0,
        state_number(m.state),
        m.groups as u64,
        work.lookups,
    );
    write_four(
        rows,
        at + 4,
        work.hits,
        work.examined,
        work.comparisons,
        work.seen,
    );
}

// Writes the row of an answer: refusal, state, groups, lookups, hits, examined, comparisons, seen.
pub fn write_row<E: Numbered>(rows: &mut [u64], at: usize, answer: Result<Mapping, E>)
    requires { at + 8 ≤ length rows.old }
    ensures { rows.new ≡ placed at (row_numbers (answer_by E.its_number answer)) rows.old }
{
    match answer {
        Err(refusal) => write_refused(rows, at, refusal),
        Ok(m) => write_mapped(rows, at, m),
    }
}
