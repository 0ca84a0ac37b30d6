// Many reads in one call: the catalogue and the index are tested once.
#![tactic(auto)]

ghost use Rattle.std.specs.Prelude.{◌≡◌, ◌*◌, ◌/◌, ◌≤◌};
ghost use Rattle.catalogue.specs.Catalogue.{catalogue_in};
ghost use Rattle.index_seeds.specs.Key.{SeedLength};
ghost use Rattle.index_model.specs.Index.{Lent, sequences_in};
ghost use Rattle.batch_map.specs.Reads.{list_refusal, RankedReads, MapsReads};
ghost use Rattle.promises.specs.Refusal.{test_number};

use batch_reads::map_shares;
use catalogue::bounds::ends_within;
use catalogue::lent::LentCatalogue;
use index_columns::LentIndex;
use index_model::ranked::RankedTargets;
use index_model::test::is_index;
use index_plan::rank_checked;
use map_answers::bounds::limit_right;
use promises::refusal::Refusal;

// Tests a limit and a list of reads: refusals 9 and 25, or none.
fn check_reads(reads: &[u8], read_ends: &[usize], rows: usize, limit: u64) -> Result<(), Refusal>
    ensures { test_number result ≡ list_refusal limit reads.now read_ends.now rows }
{
    if !limit_right(limit) {
        return Err(Refusal::CandidateLimit);
    }
    if !ends_within(read_ends, reads.len()) {
        return Err(Refusal::ReadList);
    }
    if rows % 8 != 0 {
        return Err(Refusal::ReadList);
    }
    if rows / 8 != read_ends.len() {
        return Err(Refusal::ReadList);
    }
    Ok(())
}

// The entries that each of n can have.
pub fn share_of(entries: usize, n: usize) -> usize
    ensures { (result * n ≤ entries) × ((n ≡ 0 → ⊥) → result ≡ entries / n) × (result ≤ entries) }
{
    if n == 0 {
        return 0;
    }
    entries / n
}

// Tests the index and the list of reads, and maps them: refusals 6, 9 and 25, or none.
fn map_ranked_reads(
    rows: &mut [u64],
    entries: &mut [u64],
    targets: RankedTargets<'_, '_>,
    index: LentIndex<'_>,
    q: usize,
    reads: &[u8],
    read_ends: &[usize],
    limit: u64,
) -> Result<(), Refusal>
    requires { Lent targets.bases.now targets.ends.now targets.ranked.now × SeedLength q }
    ensures { RankedReads q (sequences_in targets.entry) targets.entry.ranked.now index.entry.keys.now index.entry.ranks.now index.entry.positions.now limit reads.now read_ends.now (test_number result) rows.old entries.old rows.new entries.new }
{
    if !is_index(index, targets, q) {
        return Err(Refusal::StaleIndex);
    }
    check_reads(reads, read_ends, rows.len(), limit)?;
    let share = share_of(entries.len() / 4, read_ends.len());
    map_shares(
        rows, entries, targets, index, q, reads, read_ends, limit, share,
    );
    Ok(())
}

// Maps many reads: refusals 1 to 4, 6, 9 and 25, and then nothing is touched; or none, and read i has the row and the
// entries that `map` gives it with its share.
pub fn map_reads(
    rows: &mut [u64],
    entries: &mut [u64],
    index: LentIndex<'_>,
    catalogue: LentCatalogue<'_>,
    q: usize,
    reads: &[u8],
    read_ends: &[usize],
    limit: u64,
) -> Result<(), Refusal>
    ensures { MapsReads q (catalogue_in catalogue.entry) index.entry.keys.now index.entry.ranks.now index.entry.positions.now limit reads.now read_ends.now (test_number result) rows.old entries.old rows.new entries.new }
{
    let mut places = [0usize; 4096];
    let k = rank_checked(&mut places, catalogue, q)?;
    let targets = RankedTargets {
        bases: catalogue.bases,
        ends: catalogue.base_ends,
        ranked: &places[..k],
    };
    map_ranked_reads(rows, entries, targets, index, q, reads, read_ends, limit)
}
