ghost use Rattle.std.specs.Prelude.{true};
ghost use Rattle.catalogue.specs.Catalogue.{lent_catalogue};
ghost use Rattle.audit_ledger.specs.Booking.{lent_counters, left_counters};
ghost use Rattle.audit_model.specs.Calls.{lent_index};
ghost use Rattle.batch_lists.specs.Lists.{lent_reads, lent_fragments};
ghost use Rattle.c_calls.specs.Calls.{AuditsListNumbers};

use batch_lists::LentReads;
use c_batch::fragments_numbers;
use catalogue::lent::LentCatalogue;
use index_columns::LentIndex;

// `batch_audit::fragments`: a row for each read, and an equal share of the entries for each fragment.
#[unsafe(no_mangle)]
pub extern "C" fn jekaumeo_fragments(
    rows: &mut [u64],
    state: &mut [u64],
    entries: &mut [u64],
    placements: &mut [u64],
    singles: &mut [u64],
    multi: &mut [u64],
    keys: &[u64],
    ranks: &[u64],
    positions: &[u64],
    identifiers: &[u8],
    identifier_ends: &[usize],
    bases: &[u8],
    base_ends: &[usize],
    marks: &[u8],
    ordinals: &[u64],
    counts: &[u64],
    roles: &[u8],
    reads: &[u8],
    read_ends: &[usize],
    quality_marks: &[u8],
    qualities: &[u8],
    quality_ends: &[usize],
) -> u64
    ensures { AuditsListNumbers (lent_catalogue identifiers.now identifier_ends.now bases.now base_ends.now marks.now) (lent_index true keys.now ranks.now positions.now)
        (lent_counters placements.old singles.old multi.old)
        (lent_fragments ordinals.now counts.now (lent_reads roles.now reads.now read_ends.now quality_marks.now qualities.now quality_ends.now))
        state.old rows.old entries.old result (left_counters placements.new singles.new multi.new) state.new rows.new entries.new }
{
    fragments_numbers(
        rows,
        state,
        entries,
        placements,
        singles,
        multi,
        LentIndex {
            keys,
            ranks,
            positions,
        },
        LentCatalogue {
            identifiers,
            identifier_ends,
            bases,
            base_ends,
            marks,
        },
        ordinals,
        counts,
        LentReads {
            roles,
            bases: reads,
            base_ends: read_ends,
            marks: quality_marks,
            qualities,
            quality_ends,
        },
    )
}
