ghost use Rattle.catalogue.specs.Catalogue.{lent_catalogue};
ghost use Rattle.audit_ledger.specs.Booking.{lent_counters};
ghost use Rattle.audit_model.specs.Opening.{none};
ghost use Rattle.c_calls.specs.Calls.{FinishesNumbers};

use audit_ledger::LentCounters;
use c_calls::finish::finish_numbers;
use catalogue::lent::LentCatalogue;
use index_columns::LentIndex;

// `audit::finish::plain_finish`.
#[unsafe(no_mangle)]
pub extern "C" fn jekaumeo_plain_finish(
    answer: &mut [u64],
    placements: &[u64],
    singles: &[u64],
    multi: &[u64],
    identifiers: &[u8],
    identifier_ends: &[usize],
    bases: &[u8],
    base_ends: &[usize],
    marks: &[u8],
    state: &[u64],
) -> u64
    ensures { FinishesNumbers (lent_catalogue identifiers.now identifier_ends.now bases.now base_ends.now marks.now) none
        (lent_counters placements.now singles.now multi.now) state.now answer.old result answer.new }
{
    let zero = [0u64; 1];
    let nothing = &zero[..0];
    finish_numbers(
        answer,
        LentCounters {
            placements,
            singles,
            multi,
        },
        LentIndex {
            keys: nothing,
            ranks: nothing,
            positions: nothing,
        },
        LentCatalogue {
            identifiers,
            identifier_ends,
            bases,
            base_ends,
            marks,
        },
        state,
        false,
    )
}
