// The index of a catalogue built and tested, with the refusals of its plan and its own.
#![tactic(auto)]

ghost use Rattle.std.specs.Prelude.{◌≡◌};
ghost use Rattle.promises.specs.Refusal.{accepted, test_number};
ghost use Rattle.catalogue.specs.Catalogue.{catalogue_in};
ghost use Rattle.index_seeds.specs.Key.{SeedLength};
ghost use Rattle.index_model.specs.Index.{Lent, index_refusal, sequences_in};
ghost use Rattle.index_calls.specs.Answers.{built_outcome, BuiltAs, BuiltFrom};

use catalogue::lent::LentCatalogue;
use index_build::build_index;
use index_columns::LentIndex;
use index_model::ranked::{RankedTargets, count_postings};
use index_model::test::is_index;
use index_plan::rank_checked;
use promises::refusal::Refusal;

// Builds the index of ranked sequences where the columns have room for it: refusal 5 where they have not.
fn build_ranked(
    keys: &mut [u64],
    ranks: &mut [u64],
    positions: &mut [u64],
    targets: RankedTargets<'_, '_>,
    q: usize,
) -> Result<usize, Refusal>
    requires { Lent targets.bases.now targets.ends.now targets.ranked.now × SeedLength q }
    ensures { BuiltFrom q (sequences_in targets.entry) result keys.old ranks.old positions.old keys.new ranks.new positions.new }
{
    let n = count_postings(targets, q);
    if keys.len() < n || ranks.len() < n || positions.len() < n {
        return Err(Refusal::IndexRoom);
    }
    build_index(keys, ranks, positions, targets, q);
    Ok(n)
}

// Builds the index of a catalogue: refusals 1 to 5, and then no column is touched; or the first entries of the columns
// are the index.
pub fn build(
    keys: &mut [u64],
    ranks: &mut [u64],
    positions: &mut [u64],
    catalogue: LentCatalogue<'_>,
    q: usize,
) -> Result<usize, Refusal>
    ensures { BuiltAs q (catalogue_in catalogue.entry) result keys.old ranks.old positions.old keys.new ranks.new positions.new }
{
    let mut places = [0usize; 4096];
    let k = rank_checked(&mut places, catalogue, q)?;
    let targets = RankedTargets {
        bases: catalogue.bases,
        ends: catalogue.base_ends,
        ranked: &places[..k],
    };
    build_ranked(keys, ranks, positions, targets, q)
}

// Tests a lent index: refusals 1 to 4 and 6, or none where the columns are the index of the catalogue.
pub fn check_index(
    index: LentIndex<'_>,
    catalogue: LentCatalogue<'_>,
    q: usize,
) -> Result<(), Refusal>
    ensures { test_number result ≡ index_refusal q (catalogue_in catalogue.entry) index.entry.keys.now index.entry.ranks.now index.entry.positions.now }
{
    let mut ranked = [0usize; 4096];
    let k = rank_checked(&mut ranked, catalogue, q)?;
    let targets = RankedTargets {
        bases: catalogue.bases,
        ends: catalogue.base_ends,
        ranked: &ranked[..k],
    };
    if !is_index(index, targets, q) {
        return Err(Refusal::StaleIndex);
    }
    Ok(())
}
