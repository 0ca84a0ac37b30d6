ghost use Rattle.catalogue.specs.Catalogue.{lent_catalogue};
ghost use Rattle.audit_ledger.specs.Booking.{lent_counters, left_counters};
ghost use Rattle.audit_model.specs.Opening.{none};
ghost use Rattle.c_calls.specs.Calls.{OpensNumbers};

use c_calls::open::open_numbers;
use catalogue::lent::LentCatalogue;
use index_columns::LentIndex;

// `audit::open::plain_open`.
#[unsafe(no_mangle)]
pub extern "C" fn jekaumeo_plain_open(
    state: &mut [u64],
    placements: &mut [u64],
    singles: &mut [u64],
    multi: &mut [u64],
    identifiers: &[u8],
    identifier_ends: &[usize],
    bases: &[u8],
    base_ends: &[usize],
    marks: &[u8],
    mode: u8,
    remap: u8,
    floor: u8,
    limit: u64,
) -> u64
    ensures { OpensNumbers (lent_catalogue identifiers.now identifier_ends.now bases.now base_ends.now marks.now) none
        (lent_counters placements.old singles.old multi.old) mode remap floor limit state.old result (left_counters placements.new singles.new multi.new) state.new }
{
    let zero = [0u64; 1];
    let nothing = &zero[..0];
    open_numbers(
        state,
        placements,
        singles,
        multi,
        LentIndex {
            keys: nothing,
            ranks: nothing,
            positions: nothing,
        },
        LentCatalogue {
            identifiers,
            identifier_ends,
            bases,
            base_ends,
            marks,
        },
        false,
        mode,
        remap,
        floor,
        limit,
    )
}
