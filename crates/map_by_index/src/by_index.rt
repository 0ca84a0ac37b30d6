// The search by index: the candidates of both strands, the smaller one compared first.
ghost use Rattle.std.specs.Prelude.{◌≡◌, ◌+◌, ◌*◌, ◌≤◌, length};
ghost use Rattle.index_model.specs.Index.{sequences_in};
ghost use Rattle.map_every_start.specs.Searched.{max_count};
ghost use Rattle.map_by_index.specs.Work.{by_index};
ghost use Rattle.map_by_index.specs.Steps.{IndexSearchable, Front, Found, index_work, Spans};

use crate::work::{MappingWork, work_of};
use index_columns::LentIndex;
use index_model::ranked::RankedTargets;
use map_candidates::cursor::OrientationCursor;
use map_candidates::sides::{Sides, first_candidates};
use map_every_start::visit::{Tally, visit};
use map_places::looking::looks_again;
use map_rarest_seed::{SeedChoice, rarest_seed};
use map_skip::pass;

// The cursor over the postings of a chosen seed.
fn cursor_over(strand: u64, choice: SeedChoice) -> OrientationCursor
    ensures { Front strand choice result }
{
    OrientationCursor {
        strand,
        offset: choice.offset,
        next: choice.start,
        end: choice.end,
    }
}

// The work of a search by index.
fn index_work(plus: SeedChoice, minus: SeedChoice, sides: Sides, tally: Tally) -> MappingWork
    requires { Spans plus sides.plus × Spans minus sides.minus }
    ensures { result ≡ index_work plus minus sides tally }
{
    let forward = sides.plus.cursor.next - plus.start;
    let backward = sides.minus.cursor.next - minus.start;
    work_of(
        plus.lookups + minus.lookups,
        (plus.end - plus.start + (minus.end - minus.start)) as u64,
        (forward + backward) as u64,
        tally,
    )
}

// A tally with as many comparisons more, of candidates that were passed over.
fn counted(tally: Tally, n: usize) -> Tally
    requires { tally.comparisons + n ≤ max_count }
    ensures { (result.comparisons ≡ tally.comparisons + n) × (result.seen ≡ tally.seen) }
{
    Tally {
        comparisons: tally.comparisons + n as u64,
        seen: tally.seen,
    }
}

// The candidates of both strands, the smaller one compared first, up to the first match past the bound. The first lookup on each
// strand begins near a place that is told.
pub fn search_index(
    entries: &mut [u64],
    targets: RankedTargets<'_, '_>,
    index: LentIndex<'_>,
    q: usize,
    read: &[u8],
    bound: usize,
    plus_near: usize,
    minus_near: usize,
) -> MappingWork
    requires index_searchable { IndexSearchable q targets.bases.now targets.ends.now targets.ranked.now index.keys.now index.ranks.now index.positions.now read.now }
    requires q_in_bounds { (q ≤ length read.now) × (4 * bound ≤ length entries.old) }
    ensures { Found (by_index q) (sequences_in targets.entry) targets.entry.ranked.now read.now bound result entries.old entries.new }
{
    let plus = rarest_seed(targets, index, q, read, 0, plus_near);
    let minus = rarest_seed(targets, index, q, read, 1, minus_near);
    let forward = cursor_over(0, plus);
    let backward = cursor_over(1, minus);
    let mut sides = first_candidates(
        forward,
        backward,
        targets,
        index.ranks,
        index.positions,
        read.len(),
    );
    let mut tally = Tally {
        comparisons: 0,
        seen: 0,
    };
    let mut look = true;
    while sides.waits() {
        let plus_first = sides.plus_first();
        let next = sides.side(plus_first);
        let cursor = next.cursor;
        tally = visit(
            entries,
            targets,
            read,
            bound,
            next.rank,
            next.start,
            cursor.strand,
            tally,
        );
        if bound < tally.seen {
            return index_work(plus, minus, sides, tally);
        }
        sides = sides.moved(
            plus_first,
            targets,
            index.ranks,
            index.positions,
            read.len(),
        );
        let passed = pass(
            look,
            next,
            sides,
            targets,
            index.ranks,
            index.positions,
            read,
        );
        sides = passed.sides;
        tally = counted(tally, passed.count);
        look = looks_again(passed.count, cursor.next);
    }
    index_work(plus, minus, sides, tally)
}
