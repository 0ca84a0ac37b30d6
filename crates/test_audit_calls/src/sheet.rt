// Applies the sheet of a finished audit by a command that is written as bytes; `commands` says how.
ghost use Rattle.std.specs.Prelude.{◌≤◌, length};

use audit_ledger::LentCounters;
use audit_model::sheet::Sheet;
use audit_unitigs::apply_to_unitigs;
use catalogue::lent::LentCatalogue;
use test_audit_io::answered::put_call;
use test_audit_io::numbers::share;
use test_cases::targets::{
    base_ends_in, bases_in, identifier_ends_in, identifiers_in, lists_at, marks_in,
};
use test_cases::writing::put_numbers;

fn run_apply(
    rt: &impl Print,
    rows: &mut [u64],
    counters: LentCounters<'_>,
    audited: LentCatalogue<'_>,
    catalogue: LentCatalogue<'_>,
    sheet: Sheet,
) {
    let answer = apply_to_unitigs(rows, counters, audited, catalogue, sheet);
    put_call(rt, answer, b"applied\n");
    put_numbers(rt, b"rows", rows);
}

// The targets now written in a command, in rows that hold 999.
fn apply_written(
    rt: &impl Print,
    counters: LentCounters<'_>,
    catalogue: LentCatalogue<'_>,
    s: &[u8],
    sheet: Sheet,
)
    requires { 19 ≤ length s.now }
{
    let mut rows = [999u64; 256];
    let r = share(s, 2, 256);
    let lists = lists_at(s, 9, 19);
    let names = lists.names;
    let sequences = lists.sequences;
    let name_ends = identifier_ends_in(s, lists);
    let sequence_ends = base_ends_in(s, lists);
    run_apply(
        rt,
        &mut rows[0..r],
        counters,
        catalogue,
        LentCatalogue {
            identifiers: identifiers_in(s, lists),
            identifier_ends: &name_ends[0..names],
            bases: bases_in(s, lists),
            base_ends: &sequence_ends[0..sequences],
            marks: marks_in(s, lists),
        },
        sheet,
    );
}

// The targets now, or those of the case where none are written.
pub fn apply_command(
    rt: &impl Print,
    counters: LentCounters<'_>,
    catalogue: LentCatalogue<'_>,
    s: &[u8],
    sheet: Sheet,
)
    requires { 9 ≤ length s.now }
{
    if s.len() >= 19 {
        return apply_written(rt, counters, catalogue, s, sheet);
    }
    let mut rows = [999u64; 256];
    let r = share(s, 2, 256);
    run_apply(rt, &mut rows[0..r], counters, catalogue, catalogue, sheet);
}
