// The search by index or at every start.
#![tactic(auto)]

ghost use Rattle.std.specs.Prelude.{◌+◌, ◌≤◌, length};
ghost use Rattle.index_model.specs.Index.{sequences_in};
ghost use Rattle.map_every_start.specs.Searched.{Searchable};
ghost use Rattle.map_by_index.specs.Work.{by_index, plain};
ghost use Rattle.map_by_index.specs.Steps.{IndexSearchable};
ghost use Rattle.map_search.specs.Answered.{SearchAnswered, PartSearched};

use index_columns::LentIndex;
use index_model::ranked::RankedTargets;
use map_answers::answer::Mapping;
use map_answers::{bound_of, conclude};
use map_by_index::by_index::search_index;
use map_by_index::work::work_of;
use map_every_start::entries::clear_entries;
use map_every_start::every_start::scan;
use promises::refusal::Refusal;

// Searches at every start: refusal 10, or the state and groups of a read.
pub fn search_every_start(
    entries: &mut [u64],
    targets: RankedTargets<'_, '_>,
    read: &[u8],
    limit: u64,
) -> Result<Mapping, Refusal>
    requires { Searchable targets.bases.now targets.ends.now targets.ranked.now read.now }
    ensures { SearchAnswered plain (sequences_in targets.entry) targets.entry.ranked.now read.now limit result entries.old entries.new }
{
    clear_entries(entries);
    let bound = bound_of(limit, entries.len() / 4);
    let tally = scan(entries, targets, read, bound);
    conclude(entries, limit, bound, work_of(0, 0, 0, tally))
}

// Searches by the index, or at every start where the read is shorter than a seed: refusal 10, or the state and groups of
// a read.
pub fn search(
    entries: &mut [u64],
    targets: RankedTargets<'_, '_>,
    index: LentIndex<'_>,
    q: usize,
    read: &[u8],
    limit: u64,
    plus_near: usize,
    minus_near: usize,
) -> Result<Mapping, Refusal>
    requires { IndexSearchable q targets.bases.now targets.ends.now targets.ranked.now index.keys.now index.ranks.now index.positions.now read.now }
    ensures { SearchAnswered (by_index q) (sequences_in targets.entry) targets.entry.ranked.now read.now limit result entries.old entries.new }
{
    if read.len() < q {
        return search_every_start(entries, targets, read, limit);
    }
    clear_entries(entries);
    let bound = bound_of(limit, entries.len() / 4);
    let work = search_index(
        entries, targets, index, q, read, bound, plus_near, minus_near,
    );
    conclude(entries, limit, bound, work)
}

// Searches into `width` numbers of the entries from a place on.
pub fn search_part(
    entries: &mut [u64],
    from: usize,
    width: usize,
    targets: RankedTargets<'_, '_>,
    index: LentIndex<'_>,
    q: usize,
    read: &[u8],
    limit: u64,
    plus_near: usize,
    minus_near: usize,
) -> Result<Mapping, Refusal>
    requires index_searchable { IndexSearchable q targets.bases.now targets.ends.now targets.ranked.now index.keys.now index.ranks.now index.positions.now read.now }
    requires width_in_bounds { from + width ≤ length entries.old }
    ensures { PartSearched (by_index q) (sequences_in targets.entry) targets.entry.ranked.now read.now limit from width result entries.old entries.new }
{
    let end = from + width;
    search(
        &mut entries[from..end],
        targets,
        index,
        q,
        read,
        limit,
        plus_near,
        minus_near,
    )
}
