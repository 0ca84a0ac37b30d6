// The lines of targets.
ghost use Rattle.std.specs.Prelude.{◌+◌, ◌*◌, ◌≤◌, length};
ghost use Rattle.identifiers.specs.Lent.{lent_cut};
ghost use Rattle.audit_ledger.specs.Booking.{counters_in};
ghost use Rattle.catch_text.specs.Writing.{AddsAtMost};
ghost use Rattle.catch_sheet_lines.specs.Lent.{named_room, place_line, place_lines, TargetsLent};

use audit_ledger::LentCounters;
use audit_model::sheet::{PlacementTotals, Status};
use audit_sheet::showing::target_shown;
use catch_lines::put_target;
use identifiers::sequences::sequence_at;

// T for the target at a place.
fn put_place(
    out: &mut [u8],
    at: usize,
    identifiers: &[u8],
    ends: &[usize],
    marks: &[u8],
    counters: LentCounters<'_>,
    status: Status,
    i: usize,
) -> usize
    requires { TargetsLent identifiers.now ends.now marks.now counters.placements.now counters.singles.now counters.multi.now (i + 1) × (at + named_room ≤ length out.old) }
    ensures { AddsAtMost named_room (place_line status (counters_in counters.entry) (lent_cut identifiers.now ends.now) marks.now i) out.old at out.new result }
{
    let totals = PlacementTotals {
        placements: counters.placements[i],
        singles: counters.singles[i],
        multi: counters.multi[i],
    };
    let shown = target_shown(status, marks[i], totals);
    let name = sequence_at(identifiers, ends, i);
    put_target(out, at, name, shown)
}

// T for each of the first n targets.
pub fn put_targets(
    out: &mut [u8],
    at: usize,
    identifiers: &[u8],
    ends: &[usize],
    marks: &[u8],
    counters: LentCounters<'_>,
    status: Status,
    n: usize,
) -> usize
    requires { TargetsLent identifiers.now ends.now marks.now counters.placements.now counters.singles.now counters.multi.now n × (at + n * named_room ≤ length out.old) }
    ensures { AddsAtMost (n * named_room) (place_lines status (counters_in counters.entry) (lent_cut identifiers.now ends.now) marks.now n) out.old at out.new result }
{
    let mut p = at;
    for i in 0..n {
        p = put_place(out, p, identifiers, ends, marks, counters, status, i);
    }
    p
}
