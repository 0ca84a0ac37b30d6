ghost use Rattle.std.specs.Prelude.{true};
ghost use Rattle.catalogue.specs.Catalogue.{lent_catalogue};
ghost use Rattle.audit_ledger.specs.Booking.{lent_counters, left_counters};
ghost use Rattle.audit_model.specs.Calls.{lent_index};
ghost use Rattle.c_calls.specs.Calls.{OpensNumbers};

use c_calls::open::open_numbers;
use catalogue::lent::LentCatalogue;
use index_columns::LentIndex;

// `audit::open::open`, with the state that a run starts from.
#[unsafe(no_mangle)]
pub extern "C" fn jekaumeo_open(
    state: &mut [u64],
    placements: &mut [u64],
    singles: &mut [u64],
    multi: &mut [u64],
    keys: &[u64],
    ranks: &[u64],
    positions: &[u64],
    identifiers: &[u8],
    identifier_ends: &[usize],
    bases: &[u8],
    base_ends: &[usize],
    marks: &[u8],
    mode: u8,
    remap: u8,
    floor: u8,
    limit: u64,
) -> u64
    ensures { OpensNumbers (lent_catalogue identifiers.now identifier_ends.now bases.now base_ends.now marks.now) (lent_index true keys.now ranks.now positions.now)
        (lent_counters placements.old singles.old multi.old) mode remap floor limit state.old result (left_counters placements.new singles.new multi.new) state.new }
{
    open_numbers(
        state,
        placements,
        singles,
        multi,
        LentIndex {
            keys,
            ranks,
            positions,
        },
        LentCatalogue {
            identifiers,
            identifier_ends,
            bases,
            base_ends,
            marks,
        },
        true,
        mode,
        remap,
        floor,
        limit,
    )
}
