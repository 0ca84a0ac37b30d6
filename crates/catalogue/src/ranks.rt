// Ranks: the places of the mapped targets in the order of their names, or the catalogue's refusal.
ghost use Rattle.std.specs.Prelude.{◌≡◌, true, ◌<◌, ◌≤◌, length, ltb};
ghost use Rattle.lists.specs.Filter.{every};
ghost use Rattle.catalogue.specs.Catalogue.{catalogue_in, max_targets};
ghost use Rattle.identifiers.specs.Lent.{lent_cut};
ghost use Rattle.catalogue.specs.Ranking.{PlaceKept, Kept, MarkedNames, NamesRanked, RankedAs};

use crate::bounds::{all_proper, in_bounds};
use crate::lent::LentCatalogue;
use identifier_sort::order_names;
use promises::refusal::Refusal;

// Puts a place behind those kept if it is linear, and answers how many are kept then.
fn keep_place(order: &mut [usize], kept: usize, place: usize, linear: bool) -> usize
    requires { kept < length order.old }
    ensures { PlaceKept linear kept place order.old result order.new }
{
    if linear {
        order[kept] = place;
        return kept + 1;
    }
    kept
}

// Moves the places of linear targets to the front, in their order, and answers how many there are.
fn keep_linear(order: &mut [usize], marks: &[u8]) -> usize
    requires { every (λ p. ltb p (length marks.now)) order.old ≡ true }
    ensures { Kept marks.now order.old result order.new }
{
    let mut kept = 0;
    for i in 0..order.len() {
        let place = order[i];
        kept = keep_place(order, kept, place, marks[place] == 0);
    }
    kept
}

// Puts the linear places into the order of their names, unless two names are equal.
fn rank_names(
    order: &mut [usize],
    identifiers: &[u8],
    ends: &[usize],
    marks: &[u8],
) -> Result<usize, Refusal>
    requires { MarkedNames identifiers.now ends.now marks.now order.old }
    ensures { NamesRanked (lent_cut identifiers.now ends.now) marks.now result order.new }
{
    if !order_names(order, identifiers, ends) {
        return Err(Refusal::DoubleName);
    }
    Ok(keep_linear(order, marks))
}

// Tests a catalogue, and puts the supplied place of each rank into the buffer.
pub fn rank_targets(ranked: &mut [usize], catalogue: LentCatalogue<'_>) -> Result<usize, Refusal>
    requires { max_targets ≤ length ranked.old }
    ensures { RankedAs (catalogue_in catalogue.entry) result ranked.new }
{
    if !in_bounds(catalogue) {
        return Err(Refusal::Catalogue);
    }
    if !all_proper(catalogue.bases, catalogue.base_ends) {
        return Err(Refusal::TargetBases);
    }
    let n = catalogue.identifier_ends.len();
    rank_names(
        &mut ranked[..n],
        catalogue.identifiers,
        catalogue.identifier_ends,
        catalogue.marks,
    )
}
