// The sheet of a finished audit written to the rows of the targets.
#![tactic(auto)]

ghost use Rattle.std.specs.Prelude.{◌≡◌, ◌+◌, ◌≤◌, ◌<◌, length};
ghost use Rattle.identifiers.specs.Lent.{lent_cut};
ghost use Rattle.catalogue.specs.Catalogue.{catalogue_in};
ghost use Rattle.buffers.specs.Placed.{placed};
ghost use Rattle.audit_ledger.specs.Booking.{counters_of, counters_in};
ghost use Rattle.audit_model.specs.Unitigs.{shown_numbers};
ghost use Rattle.audit_unitigs.specs.Rows.{names_alike, place_alike, lists_for, rows_to, Named, RowsLent, Applies};

use audit_codes::status_number;
use audit_ledger::LentCounters;
use audit_model::sheet::{PlacementTotals, Sheet, Shown, Status};
use audit_sheet::showing::target_shown;
use buffers::write_four;
use catalogue::bounds::in_bounds;
use catalogue::lent::LentCatalogue;
use identifiers::sequences::sequence_at;
use promises::refusal::Refusal;

// Whether two lists of targets have the same name and topology at a place.
fn same_at(
    identifiers: &[u8],
    ends: &[usize],
    marks: &[u8],
    other_identifiers: &[u8],
    other_ends: &[usize],
    other_marks: &[u8],
    i: usize,
) -> bool
    requires { (Named identifiers.now ends.now marks.now × Named other_identifiers.now other_ends.now other_marks.now) × ((i < length ends.now) × (i < length other_ends.now)) }
    ensures { result ≡ place_alike (lent_cut identifiers.now ends.now) marks.now (lent_cut other_identifiers.now other_ends.now) other_marks.now i }
{
    marks[i] == other_marks[i]
        && sequence_at(identifiers, ends, i) == sequence_at(other_identifiers, other_ends, i)
}

// Whether two lists of targets have the same names and topologies, place by place: 19 where they do not.
fn same_targets(
    identifiers: &[u8],
    ends: &[usize],
    marks: &[u8],
    other_identifiers: &[u8],
    other_ends: &[usize],
    other_marks: &[u8],
) -> bool
    requires { Named identifiers.now ends.now marks.now × Named other_identifiers.now other_ends.now other_marks.now }
    ensures { result ≡ names_alike (lent_cut identifiers.now ends.now) marks.now (lent_cut other_identifiers.now other_ends.now) other_marks.now }
{
    let n = ends.len();
    if other_ends.len() != n {
        return false;
    }
    for i in 0..n {
        if !same_at(
            identifiers,
            ends,
            marks,
            other_identifiers,
            other_ends,
            other_marks,
            i,
        ) {
            return false;
        }
    }
    true
}

// Writes what is shown of a target from a place on.
pub fn write_shown(rows: &mut [u64], at: usize, shown: Shown)
    requires { at + 4 ≤ length rows.old }
    ensures { rows.new ≡ placed at (shown_numbers shown) rows.old }
{
    let number = status_number(shown.status);
    match shown.totals {
        None => write_four(rows, at, number, 0, 0, 0),
        Some(t) => write_four(rows, at, number, t.placements, t.singles, t.multi),
    }
}

// Writes the row of every target.
fn write_rows(rows: &mut [u64], counters: LentCounters<'_>, marks: &[u8], status: Status)
    requires { RowsLent (length marks.now) (counters_of counters.placements.now counters.singles.now counters.multi.now) rows.old }
    ensures { rows.new ≡ rows_to status marks.now (counters_in counters.entry) (length marks.now) }
{
    for i in 0..marks.len() {
        let totals = PlacementTotals {
            placements: counters.placements[i],
            singles: counters.singles[i],
            multi: counters.multi[i],
        };
        write_shown(rows, 4 * i, target_shown(status, marks[i], totals));
    }
}

// Whether there is one counter of each kind, and one row, for each target.
fn lists_right(rows: &[u64], counters: LentCounters<'_>, audited: usize, targets: usize) -> bool
    ensures { result ≡ lists_for audited (counters_in counters.entry) targets rows.now }
{
    counters.placements.len() == audited
        && counters.singles.len() == audited
        && counters.multi.len() == audited
        && rows.len() % 4 == 0
        && rows.len() / 4 == targets
}

// Writes the sheet to the rows of the targets: 2 or 19 with nothing written, or a status and three totals for each target.
pub fn apply_to_unitigs(
    rows: &mut [u64],
    counters: LentCounters<'_>,
    audited: LentCatalogue<'_>,
    catalogue: LentCatalogue<'_>,
    sheet: Sheet,
) -> Result<(), Refusal>
    ensures { Applies (catalogue_in audited.entry)
        (catalogue_in catalogue.entry)
        sheet (counters_in counters.entry) rows.old result rows.new }
{
    if !in_bounds(catalogue) {
        return Err(Refusal::Catalogue);
    }
    if !in_bounds(audited) {
        return Err(Refusal::Catalogue);
    }
    if !lists_right(rows, counters, audited.marks.len(), catalogue.marks.len()) {
        return Err(Refusal::Catalogue);
    }
    if !same_targets(
        audited.identifiers,
        audited.identifier_ends,
        audited.marks,
        catalogue.identifiers,
        catalogue.identifier_ends,
        catalogue.marks,
    ) {
        return Err(Refusal::ChangedTargets);
    }
    write_rows(rows, counters, catalogue.marks, sheet.run.status);
    Ok(())
}
