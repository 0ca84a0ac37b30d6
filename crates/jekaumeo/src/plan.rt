ghost use Rattle.catalogue.specs.Catalogue.{lent_catalogue};
ghost use Rattle.jekaumeo.specs.Exports.{ExportsPlan};

use c_replies::put_plan;
use catalogue::lent::LentCatalogue;
use index_plan::plan;

// `index_plan::plan`. The answer: refusal, mapped targets, postings.
#[tactic(auto, using(crate::proofs::Answering::plan_short, crate::proofs::Answering::plan_room))]
#[unsafe(no_mangle)]
pub extern "C" fn jekaumeo_plan(
    answer: &mut [u64],
    identifiers: &[u8],
    identifier_ends: &[usize],
    bases: &[u8],
    base_ends: &[usize],
    marks: &[u8],
    q: usize,
) -> u64
    ensures { ExportsPlan q (lent_catalogue identifiers.now identifier_ends.now bases.now base_ends.now marks.now) result answer.old answer.new }
{
    if answer.len() < 3 {
        return 26;
    }
    let planned = plan(
        LentCatalogue {
            identifiers,
            identifier_ends,
            bases,
            base_ends,
            marks,
        },
        q,
    );
    put_plan(answer, planned)
}
