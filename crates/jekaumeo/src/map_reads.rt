ghost use Rattle.catalogue.specs.Catalogue.{lent_catalogue};
ghost use Rattle.batch_map.specs.Reads.{MapsReads};

use batch_map::map_reads;
use catalogue::lent::LentCatalogue;
use index_columns::LentIndex;
use promises::refusal::number_of;

// `batch_map::map_reads`: a row of eight numbers for each read, laid out as the answer of `jekaumeo_map`.
#[unsafe(no_mangle)]
pub extern "C" fn jekaumeo_map_reads(
    rows: &mut [u64],
    entries: &mut [u64],
    keys: &[u64],
    ranks: &[u64],
    positions: &[u64],
    identifiers: &[u8],
    identifier_ends: &[usize],
    bases: &[u8],
    base_ends: &[usize],
    marks: &[u8],
    q: usize,
    reads: &[u8],
    read_ends: &[usize],
    limit: u64,
) -> u64
    ensures { MapsReads q (lent_catalogue identifiers.now identifier_ends.now bases.now base_ends.now marks.now) keys.now ranks.now positions.now limit reads.now read_ends.now result rows.old entries.old rows.new entries.new }
{
    number_of(map_reads(
        rows,
        entries,
        LentIndex {
            keys,
            ranks,
            positions,
        },
        LentCatalogue {
            identifiers,
            identifier_ends,
            bases,
            base_ends,
            marks,
        },
        q,
        reads,
        read_ends,
        limit,
    ))
}
