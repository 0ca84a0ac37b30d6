// The public call that maps a read.
ghost use Rattle.std.specs.Prelude.{◌≡◌};
ghost use Rattle.catalogue.specs.Catalogue.{catalogue_in};
ghost use Rattle.index_seeds.specs.Key.{SeedLength};
ghost use Rattle.index_model.specs.Index.{Lent, sequences_in};
ghost use Rattle.map_by_index.specs.Steps.{Mappable};
ghost use Rattle.indexed_mapper.specs.Map.{read_refusal, ReadMapped, IndexMapped, MapsTo};
ghost use Rattle.promises.specs.Refusal.{test_number};

use catalogue::bounds::proper_sequence;
use catalogue::lent::LentCatalogue;
use index_columns::LentIndex;
use index_lookup::lookup::NOWHERE;
use index_model::ranked::RankedTargets;
use index_model::test::is_index;
use index_plan::rank_checked;
use map_answers::answer::Mapping;
use map_answers::bounds::{length_right, limit_right};
use map_search::search;
use promises::refusal::Refusal;

// Tests a read and a limit: refusals 7, 8 and 9, or none.
#[tactic(auto, using(crate::proofs::Mapping::read_long, crate::proofs::Mapping::read_improper, crate::proofs::Mapping::limit_out, crate::proofs::Mapping::read_accepted))]
pub fn check_read(read: &[u8], limit: u64) -> Result<(), Refusal>
    ensures { test_number result ≡ read_refusal read.now limit }
{
    if !length_right(read) {
        return Err(Refusal::ReadLength);
    }
    if !proper_sequence(read) {
        return Err(Refusal::ReadBases);
    }
    if !limit_right(limit) {
        return Err(Refusal::CandidateLimit);
    }
    Ok(())
}

// Tests a read and a limit, and searches: refusals 7 to 10, or the state and groups of the read.
pub fn map_read(
    entries: &mut [u64],
    targets: RankedTargets<'_, '_>,
    index: LentIndex<'_>,
    q: usize,
    read: &[u8],
    limit: u64,
) -> Result<Mapping, Refusal>
    requires { Mappable q targets.bases.now targets.ends.now targets.ranked.now index.keys.now index.ranks.now index.positions.now }
    ensures { ReadMapped q (sequences_in targets.entry) targets.entry.ranked.now read.now limit result entries.old entries.new }
{
    check_read(read, limit)?;
    search(entries, targets, index, q, read, limit, NOWHERE, NOWHERE)
}

// Tests the index, and maps the read: refusals 6 to 10, or the state and groups of the read.
fn map_ranked(
    entries: &mut [u64],
    targets: RankedTargets<'_, '_>,
    index: LentIndex<'_>,
    q: usize,
    read: &[u8],
    limit: u64,
) -> Result<Mapping, Refusal>
    requires { Lent targets.bases.now targets.ends.now targets.ranked.now × SeedLength q }
    ensures { IndexMapped q (sequences_in targets.entry) targets.entry.ranked.now index.entry.keys.now index.entry.ranks.now index.entry.positions.now read.now limit result entries.old entries.new }
{
    if !is_index(index, targets, q) {
        return Err(Refusal::StaleIndex);
    }
    map_read(entries, targets, index, q, read, limit)
}

// Maps a read: refusals 1 to 4 and 6 to 10, or its state and its groups, which are written into the entries.
pub fn map(
    entries: &mut [u64],
    index: LentIndex<'_>,
    catalogue: LentCatalogue<'_>,
    q: usize,
    read: &[u8],
    limit: u64,
) -> Result<Mapping, Refusal>
    ensures { MapsTo q (catalogue_in catalogue.entry) index.entry.keys.now index.entry.ranks.now index.entry.positions.now read.now limit result entries.old entries.new }
{
    let mut places = [0usize; 4096];
    let k = rank_checked(&mut places, catalogue, q)?;
    let targets = RankedTargets {
        bases: catalogue.bases,
        ends: catalogue.base_ends,
        ranked: &places[..k],
    };
    map_ranked(entries, targets, index, q, read, limit)
}
