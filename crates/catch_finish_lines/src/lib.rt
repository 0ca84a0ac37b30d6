// The lines of a finish's answer: those of its sheet, or its refusal.
#![tactic(auto)]

ghost use Rattle.std.specs.Prelude.{◌+◌, ◌≤◌, length};
ghost use Rattle.identifiers.specs.Lent.{lent_cut};
ghost use Rattle.audit_ledger.specs.Booking.{counters_in};
ghost use Rattle.catch_text.specs.Writing.{AddsAtMost};
ghost use Rattle.catch_sheet_lines.specs.Lent.{sheet_room, TargetsLent};
ghost use Rattle.catch_finish_lines.specs.Finish.{told_by};

use audit_ledger::LentCounters;
use audit_model::sheet::Sheet;
use catch_lines::put_refusal;
use catch_sheet_lines::put_sheet;
use promises::refusal::Numbered;

// The lines of an answer.
pub fn put_finish<E: Numbered>(
    out: &mut [u8],
    at: usize,
    identifiers: &[u8],
    ends: &[usize],
    marks: &[u8],
    counters: LentCounters<'_>,
    answer: Result<(), E>,
    sheet: Sheet,
) -> usize
    requires { TargetsLent identifiers.now ends.now marks.now counters.placements.now counters.singles.now counters.multi.now (length ends.now) × (at + sheet_room (length ends.now) ≤ length out.old) }
    ensures { AddsAtMost (sheet_room (length ends.now)) (told_by E.its_number answer sheet (counters_in counters.entry) (lent_cut identifiers.now ends.now) marks.now (length ends.now)) out.old at out.new result }
{
    match answer {
        Err(refusal) => put_refusal(out, at, refusal),
        Ok(()) => put_sheet(out, at, identifiers, ends, marks, counters, sheet),
    }
}
