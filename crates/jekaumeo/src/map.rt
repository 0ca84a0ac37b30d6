ghost use Rattle.catalogue.specs.Catalogue.{lent_catalogue};
ghost use Rattle.jekaumeo.specs.Exports.{ExportsMap};

use c_replies::put_answer;
use catalogue::lent::LentCatalogue;
use index_columns::LentIndex;
use indexed_mapper::map::map;

// `indexed_mapper::map::map`. The answer: refusal, state, groups, lookups, hits, examined, comparisons, seen.
#[tactic(auto, using(crate::proofs::Answering::map_short, crate::proofs::Answering::map_room))]
#[unsafe(no_mangle)]
pub extern "C" fn jekaumeo_map(
    answer: &mut [u64],
    entries: &mut [u64],
    keys: &[u64],
    ranks: &[u64],
    positions: &[u64],
    identifiers: &[u8],
    identifier_ends: &[usize],
    bases: &[u8],
    base_ends: &[usize],
    marks: &[u8],
    q: usize,
    read: &[u8],
    limit: u64,
) -> u64
    ensures { ExportsMap q (lent_catalogue identifiers.now identifier_ends.now bases.now base_ends.now marks.now) keys.now ranks.now positions.now read.now limit result answer.old entries.old answer.new entries.new }
{
    if answer.len() < 8 {
        return 26;
    }
    let mapped = map(
        entries,
        LentIndex {
            keys,
            ranks,
            positions,
        },
        LentCatalogue {
            identifiers,
            identifier_ends,
            bases,
            base_ends,
            marks,
        },
        q,
        read,
        limit,
    );
    put_answer(answer, mapped)
}
