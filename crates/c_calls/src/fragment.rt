// A fragment audited, with the state as numbers.
ghost use Rattle.catalogue.specs.Catalogue.{catalogue_in};
ghost use Rattle.audit_ledger.specs.Booking.{lent_counters, left_counters};
ghost use Rattle.audit_model.specs.Calls.{lent_index};
ghost use Rattle.c_calls.specs.Calls.{lent_coded, coded_fragment, AuditsNumbers};

use crate::codes_right;
use audit_codes::role_of;
use audit_fragment::audit_fragment;
use audit_model::settings::{AUDIT_OFFSET, AUDIT_SEED};
use batch_fragment_rows::write_fragment;
use c_state::{is_state, put_state, state_of};
use catalogue::lent::LentCatalogue;
use index_columns::LentIndex;

// Audits a fragment by the index, or plain.
pub fn fragment_numbers(
    answer: &mut [u64],
    state: &mut [u64],
    entries: &mut [u64],
    placements: &mut [u64],
    singles: &mut [u64],
    multi: &mut [u64],
    index: LentIndex<'_>,
    catalogue: LentCatalogue<'_>,
    first: &[u8],
    first_qualities: &[u8],
    second: &[u8],
    second_qualities: &[u8],
    first_role: u8,
    first_mark: u8,
    second_role: u8,
    second_mark: u8,
    ordinal: u64,
    count: usize,
    indexed: bool,
) -> u64
    ensures { AuditsNumbers (catalogue_in catalogue.entry) (lent_index indexed index.entry.keys.now index.entry.ranks.now index.entry.positions.now)
        (lent_counters placements.old singles.old multi.old)
        (coded_fragment ordinal count (lent_coded first_role first_mark first.now first_qualities.now) (lent_coded second_role second_mark second.now second_qualities.now))
        state.old answer.old entries.old result (left_counters placements.new singles.new multi.new) state.new answer.new entries.new }
{
    if answer.len() < 16 {
        return 26;
    }
    if !codes_right(first_role, first_mark) {
        return 26;
    }
    if !codes_right(second_role, second_mark) {
        return 26;
    }
    if !is_state(state) {
        return 26;
    }
    let held = state_of(state);
    let audit = audit_fragment(
        entries,
        placements,
        singles,
        multi,
        index,
        catalogue,
        first,
        first_qualities,
        second,
        second_qualities,
        role_of(first_role),
        first_mark == 1,
        role_of(second_role),
        second_mark == 1,
        ordinal,
        count,
        indexed,
        AUDIT_SEED,
        AUDIT_OFFSET,
        held,
    );
    put_state(state, audit.state);
    write_fragment(answer, 0, 2, audit.answer);
    answer[0]
}
