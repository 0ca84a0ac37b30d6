// Refusals 2 and 3: the bounds of a catalogue, and the bases of its targets.
ghost use Rattle.std.specs.Prelude.{◌≡◌, min};
ghost use Rattle.lists.specs.Filter.{every};
ghost use Rattle.lists.specs.Cut.{ends_within};
ghost use Rattle.bases.specs.Base.{is_capital};
ghost use Rattle.identifiers.specs.Lent.{lent_cut, EndsRight};
ghost use Rattle.catalogue.specs.Catalogue.{catalogue_in, lengths_within, marks_right, in_bounds, proper_sequence};

use crate::lent::LentCatalogue;
use buffers::least;

const MAX_TARGETS: usize = 4096;

const MAX_IDENTIFIER: usize = 255;

const MAX_BASES: usize = 16777216;

// Whether no end falls or passes a bound.
pub fn ends_within(ends: &[usize], most: usize) -> bool
    ensures { result ≡ ends_within 0 most ends.now }
{
    let mut from = 0;
    for &end in ends {
        if end < from || most < end {
            return false;
        }
        from = end;
    }
    true
}

// Whether no sequence is longer than a bound.
fn lengths_within(ends: &[usize], bytes: &[u8], most: usize) -> bool
    requires { EndsRight bytes.now ends.now }
    ensures { result ≡ lengths_within most (lent_cut bytes.now ends.now) }
{
    let mut from = 0;
    for &end in ends {
        if most < end - from {
            return false;
        }
        from = end;
    }
    true
}

// Whether each mark is 0 or 1.
fn marks_right(marks: &[u8]) -> bool
    ensures { result ≡ marks_right marks.now }
{
    marks.iter().all(|m| *m <= 1)
}

// Whether a catalogue is within its bounds: refusal 2 where it is not.
#[tactic(auto, unfolding(crate::specs::Catalogue::in_bounds))]
pub fn in_bounds(catalogue: LentCatalogue<'_>) -> bool
    ensures { result ≡ in_bounds (catalogue_in catalogue.entry) }
{
    catalogue.identifier_ends.len() <= MAX_TARGETS
        && catalogue.base_ends.len() == catalogue.identifier_ends.len()
        && catalogue.marks.len() == catalogue.identifier_ends.len()
        && ends_within(catalogue.identifier_ends, catalogue.identifiers.len())
        && ends_within(catalogue.base_ends, least(catalogue.bases.len(), MAX_BASES))
        && lengths_within(
            catalogue.identifier_ends,
            catalogue.identifiers,
            MAX_IDENTIFIER,
        )
        && marks_right(catalogue.marks)
}

// Whether a sequence is not empty and all capitals of ACGT.
pub fn proper_sequence(bases: &[u8]) -> bool
    ensures { result ≡ proper_sequence bases.now }
{
    !bases.is_empty() && bases.iter().all(|b| is_capital(*b))
}

// Whether a byte is a capital of ACGT.
#[tactic(auto, unfolding(bases::specs::Base::is_capital))]
fn is_capital(b: u8) -> bool
    ensures { result ≡ is_capital b }
{
    matches!(b, b'A' | b'C' | b'G' | b'T')
}

// Whether every target's sequence is proper: refusal 3 where some is not.
pub(crate) fn all_proper(bases: &[u8], ends: &[usize]) -> bool
    requires { EndsRight bases.now ends.now }
    ensures { result ≡ every proper_sequence (lent_cut bases.now ends.now) }
{
    let mut from = 0;
    for &end in ends {
        if !proper_sequence(&bases[from..end]) {
            return false;
        }
        from = end;
    }
    true
}
