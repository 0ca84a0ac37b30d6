ghost use Rattle.std.specs.Prelude.{true};
ghost use Rattle.catalogue.specs.Catalogue.{lent_catalogue};
ghost use Rattle.audit_ledger.specs.Booking.{lent_counters, left_counters};
ghost use Rattle.audit_model.specs.Calls.{lent_index};
ghost use Rattle.c_calls.specs.Calls.{lent_coded, coded_fragment, AuditsNumbers};

use c_calls::fragment::fragment_numbers;
use catalogue::lent::LentCatalogue;
use index_columns::LentIndex;

// `audit::fragment::fragment`. The answer: a row for each read, laid out as the answer of `jekaumeo_map`.
#[unsafe(no_mangle)]
pub extern "C" fn jekaumeo_fragment(
    answer: &mut [u64],
    state: &mut [u64],
    entries: &mut [u64],
    placements: &mut [u64],
    singles: &mut [u64],
    multi: &mut [u64],
    keys: &[u64],
    ranks: &[u64],
    positions: &[u64],
    identifiers: &[u8],
    identifier_ends: &[usize],
    bases: &[u8],
    base_ends: &[usize],
    marks: &[u8],
    first: &[u8],
    first_qualities: &[u8],
    second: &[u8],
    second_qualities: &[u8],
    first_role: u8,
    first_mark: u8,
    second_role: u8,
    second_mark: u8,
    ordinal: u64,
    count: usize,
) -> u64
    ensures { AuditsNumbers (lent_catalogue identifiers.now identifier_ends.now bases.now base_ends.now marks.now) (lent_index true keys.now ranks.now positions.now)
        (lent_counters placements.old singles.old multi.old)
        (coded_fragment ordinal count (lent_coded first_role first_mark first.now first_qualities.now) (lent_coded second_role second_mark second.now second_qualities.now))
        state.old answer.old entries.old result (left_counters placements.new singles.new multi.new) state.new answer.new entries.new }
{
    fragment_numbers(
        answer,
        state,
        entries,
        placements,
        singles,
        multi,
        LentIndex {
            keys,
            ranks,
            positions,
        },
        LentCatalogue {
            identifiers,
            identifier_ends,
            bases,
            base_ends,
            marks,
        },
        first,
        first_qualities,
        second,
        second_qualities,
        first_role,
        first_mark,
        second_role,
        second_mark,
        ordinal,
        count,
        true,
    )
}
