// Many fragments audited in one call, with the state as numbers.
#![tactic(auto)]

ghost use Rattle.std.specs.Prelude.{true};
ghost use Rattle.catalogue.specs.Catalogue.{catalogue_in};
ghost use Rattle.audit_ledger.specs.Booking.{lent_counters, left_counters};
ghost use Rattle.audit_model.specs.Calls.{lent_index};
ghost use Rattle.batch_lists.specs.Lists.{reads_in, lent_fragments};
ghost use Rattle.c_calls.specs.Calls.{AuditsListNumbers};

use batch_audit::fragments;
use batch_lists::LentReads;
use c_state::{is_state, put_state, state_of};
use catalogue::lent::LentCatalogue;
use index_columns::LentIndex;
use promises::refusal::number_of;

// Audits many fragments by the index.
pub fn fragments_numbers(
    rows: &mut [u64],
    state: &mut [u64],
    entries: &mut [u64],
    placements: &mut [u64],
    singles: &mut [u64],
    multi: &mut [u64],
    index: LentIndex<'_>,
    catalogue: LentCatalogue<'_>,
    ordinals: &[u64],
    counts: &[u64],
    reads: LentReads<'_>,
) -> u64
    ensures { AuditsListNumbers (catalogue_in catalogue.entry) (lent_index true index.entry.keys.now index.entry.ranks.now index.entry.positions.now)
        (lent_counters placements.old singles.old multi.old)
        (lent_fragments ordinals.now counts.now (reads_in reads.entry))
        state.old rows.old entries.old result (left_counters placements.new singles.new multi.new) state.new rows.new entries.new }
{
    if !is_state(state) {
        return 26;
    }
    let held = state_of(state);
    let audit = fragments(
        rows, entries, placements, singles, multi, index, catalogue, ordinals, counts, reads, held,
    );
    put_state(state, audit.state);
    number_of(audit.answer)
}
