ghost use Rattle.std.specs.Prelude.{true};
ghost use Rattle.catalogue.specs.Catalogue.{lent_catalogue};
ghost use Rattle.audit_ledger.specs.Booking.{lent_counters};
ghost use Rattle.audit_model.specs.Calls.{lent_index};
ghost use Rattle.c_calls.specs.Calls.{FinishesNumbers};

use audit_ledger::LentCounters;
use c_calls::finish::finish_numbers;
use catalogue::lent::LentCatalogue;
use index_columns::LentIndex;

// `audit::finish::finish`. The answer: refusal, mode, remap, eighteen counts, status, placements, singles, multi.
#[unsafe(no_mangle)]
pub extern "C" fn jekaumeo_finish(
    answer: &mut [u64],
    placements: &[u64],
    singles: &[u64],
    multi: &[u64],
    keys: &[u64],
    ranks: &[u64],
    positions: &[u64],
    identifiers: &[u8],
    identifier_ends: &[usize],
    bases: &[u8],
    base_ends: &[usize],
    marks: &[u8],
    state: &[u64],
) -> u64
    ensures { FinishesNumbers (lent_catalogue identifiers.now identifier_ends.now bases.now base_ends.now marks.now) (lent_index true keys.now ranks.now positions.now)
        (lent_counters placements.now singles.now multi.now) state.now answer.old result answer.new }
{
    finish_numbers(
        answer,
        LentCounters {
            placements,
            singles,
            multi,
        },
        LentIndex {
            keys,
            ranks,
            positions,
        },
        LentCatalogue {
            identifiers,
            identifier_ends,
            bases,
            base_ends,
            marks,
        },
        state,
        true,
    )
}
