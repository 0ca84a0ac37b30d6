ghost use Rattle.std.specs.Prelude.{◌≡◌};
ghost use Rattle.catalogue.specs.Catalogue.{lent_catalogue};
ghost use Rattle.index_model.specs.Index.{index_refusal};

use catalogue::lent::LentCatalogue;
use index_calls::check_index;
use index_columns::LentIndex;
use promises::refusal::number_of;

// `index_calls::check_index`.
#[unsafe(no_mangle)]
pub extern "C" fn jekaumeo_check_index(
    keys: &[u64],
    ranks: &[u64],
    positions: &[u64],
    identifiers: &[u8],
    identifier_ends: &[usize],
    bases: &[u8],
    base_ends: &[usize],
    marks: &[u8],
    q: usize,
) -> u64
    ensures { result ≡ index_refusal q (lent_catalogue identifiers.now identifier_ends.now bases.now base_ends.now marks.now) keys.now ranks.now positions.now }
{
    number_of(check_index(
        LentIndex {
            keys,
            ranks,
            positions,
        },
        LentCatalogue {
            identifiers,
            identifier_ends,
            bases,
            base_ends,
            marks,
        },
        q,
    ))
}
