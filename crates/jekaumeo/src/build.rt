ghost use Rattle.catalogue.specs.Catalogue.{lent_catalogue};
ghost use Rattle.jekaumeo.specs.Exports.{ExportsBuild};

use c_replies::put_built;
use catalogue::lent::LentCatalogue;
use index_calls::build;

// `index_calls::build`. The answer: refusal, postings.
#[tactic(auto, using(crate::proofs::Answering::build_short, crate::proofs::Answering::build_room))]
#[unsafe(no_mangle)]
pub extern "C" fn jekaumeo_build(
    answer: &mut [u64],
    keys: &mut [u64],
    ranks: &mut [u64],
    positions: &mut [u64],
    identifiers: &[u8],
    identifier_ends: &[usize],
    bases: &[u8],
    base_ends: &[usize],
    marks: &[u8],
    q: usize,
) -> u64
    ensures { ExportsBuild q (lent_catalogue identifiers.now identifier_ends.now bases.now base_ends.now marks.now) result answer.old keys.old ranks.old positions.old answer.new keys.new ranks.new positions.new }
{
    if answer.len() < 2 {
        return 26;
    }
    let built = build(
        keys,
        ranks,
        positions,
        LentCatalogue {
            identifiers,
            identifier_ends,
            bases,
            base_ends,
            marks,
        },
        q,
    );
    put_built(answer, built)
}
