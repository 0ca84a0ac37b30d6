// The lines of groups, counts and targets, written behind the bytes of an output.
#![tactic(auto)]

ghost use Rattle.std.specs.Prelude.{◌+◌, ◌≤◌, length};
ghost use Rattle.identifiers.specs.Lent.{lent_cut};
ghost use Rattle.audit_ledger.specs.Booking.{counters_in};
ghost use Rattle.catch_text.specs.Writing.{AddsAtMost};
ghost use Rattle.catch_sheet_lines.specs.Lent.{sheet_room, sheet_told, TargetsLent};

use audit_ledger::LentCounters;
use audit_model::sheet::Sheet;
use catch_lines::put_run;
use counts::put_counts;
use targets::put_targets;

pub mod counts;
pub mod groups;
pub mod targets;

// S, T and A of a sheet.
pub fn put_sheet(
    out: &mut [u8],
    at: usize,
    identifiers: &[u8],
    ends: &[usize],
    marks: &[u8],
    counters: LentCounters<'_>,
    sheet: Sheet,
) -> usize
    requires { TargetsLent identifiers.now ends.now marks.now counters.placements.now counters.singles.now counters.multi.now (length ends.now) × (at + sheet_room (length ends.now) ≤ length out.old) }
    ensures { AddsAtMost (sheet_room (length ends.now)) (sheet_told sheet (counters_in counters.entry) (lent_cut identifiers.now ends.now) marks.now (length ends.now)) out.old at out.new result }
{
    let a = put_counts(out, at, sheet);
    let b = put_targets(
        out,
        a,
        identifiers,
        ends,
        marks,
        counters,
        sheet.run.status,
        ends.len(),
    );
    put_run(out, b, sheet.run)
}
