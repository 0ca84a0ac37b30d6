// The rows of a fragment's reads.
#![tactic(auto)]

ghost use Rattle.std.specs.Prelude.{◌≡◌, ◌+◌, ◌*◌, ◌≤◌, length};
ghost use Rattle.buffers.specs.Placed.{placed};
ghost use Rattle.audit_model.specs.Calls.{fragment_by};
ghost use Rattle.batch_lists.specs.Listed.{refused_rows, outcome_rows};

use audit_model::calls::FragmentRows;
use batch_rows::write_row;
use promises::refusal::Numbered;

// Writes a refusal as the row of each of n reads, from the row at a place on.
fn write_refusals<E: Numbered>(rows: &mut [u64], at: usize, n: usize, refusal: E)
    requires { 8 * (at + n) ≤ length rows.old }
    ensures { rows.new ≡ placed (8 * at) (refused_rows (E.its_number refusal) n) rows.old }
{
    for i in 0..n {
        write_row(rows, 8 * (at + i), Err(refusal));
    }
}

// Writes the rows of a fragment of n reads, from the row at a place on.
pub fn write_fragment<E: Numbered>(
    rows: &mut [u64],
    at: usize,
    n: usize,
    answer: Result<FragmentRows, E>,
)
    requires { 8 * at + length (outcome_rows n (fragment_by E.its_number answer)) ≤ length rows.old }
    ensures { rows.new ≡ placed (8 * at) (outcome_rows n (fragment_by E.its_number answer)) rows.old }
{
    match answer {
        Err(refusal) => write_refusals(rows, at, n, refusal),
        Ok(FragmentRows::Single(m)) => write_row::<E>(rows, 8 * at, Ok(m)),
        Ok(FragmentRows::Paired(m)) => {
            write_row::<E>(rows, 8 * at, Ok(m.first));
            write_row::<E>(rows, 8 * at + 8, Ok(m.second));
        }
    }
}
