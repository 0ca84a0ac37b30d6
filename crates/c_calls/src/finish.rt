// An audit finished, and its sheet as numbers.
ghost use Rattle.catalogue.specs.Catalogue.{catalogue_in};
ghost use Rattle.audit_ledger.specs.Booking.{counters_in, left_counters};
ghost use Rattle.audit_model.specs.Calls.{lent_index};
ghost use Rattle.c_calls.specs.Calls.{FinishesNumbers, AppliesNumbers};

use audit_finish::finish_audit;
use audit_ledger::LentCounters;
use audit_model::settings::{AUDIT_OFFSET, AUDIT_SEED};
use audit_unitigs::apply_to_unitigs;
use c_sheet::{is_sheet, put_finish, sheet_of};
use c_state::{is_state, state_of};
use catalogue::lent::LentCatalogue;
use index_columns::LentIndex;
use promises::refusal::number_of;

// Finishes an audit by the index, or plain.
pub fn finish_numbers(
    answer: &mut [u64],
    counters: LentCounters<'_>,
    index: LentIndex<'_>,
    catalogue: LentCatalogue<'_>,
    state: &[u64],
    indexed: bool,
) -> u64
    ensures { FinishesNumbers (catalogue_in catalogue.entry) (lent_index indexed index.entry.keys.now index.entry.ranks.now index.entry.positions.now)
        (counters_in counters.entry) state.now answer.old result answer.new }
{
    if answer.len() < 25 {
        return 26;
    }
    if !is_state(state) {
        return 26;
    }
    let held = state_of(state);
    let finish = finish_audit(
        counters,
        index,
        catalogue,
        indexed,
        AUDIT_SEED,
        AUDIT_OFFSET,
        held,
    );
    put_finish(answer, finish.answer, finish.sheet)
}

// Writes the sheet to the rows of the targets.
pub fn apply_numbers(
    rows: &mut [u64],
    counters: LentCounters<'_>,
    audited: LentCatalogue<'_>,
    catalogue: LentCatalogue<'_>,
    sheet: &[u64],
) -> u64
    ensures { AppliesNumbers (catalogue_in audited.entry)
        (catalogue_in catalogue.entry)
        (counters_in counters.entry) sheet.now rows.old result rows.new }
{
    if !is_sheet(sheet) {
        return 26;
    }
    let finished = sheet_of(sheet);
    number_of(apply_to_unitigs(rows, counters, audited, catalogue, finished))
}
