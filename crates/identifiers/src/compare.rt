// Identifiers compared.
ghost use Rattle.std.specs.Prelude.{◌≡◌};
ghost use Rattle.identifiers.specs.Comparison.{comparison};

use std::cmp::Ordering;

// Compares two identifiers by unsigned bytes, a prefix before the longer. Where the first bytes differ they decide, without a look at
// the many bytes that the library takes at once.
#[tactic(auto, using(crate::proofs::NameLaws::compared, crate::proofs::NameLaws::first_decides))]
pub fn compare_names(x: &[u8], y: &[u8]) -> Ordering
    ensures { result ≡ comparison x.now y.now }
{
    if !x.is_empty() && !y.is_empty() && x[0] != y[0] {
        return x[0].cmp(&y[0]);
    }
    x.cmp(y)
}
