// A cursor and its counts, moved on in place.
#![tactic(auto)]

ghost use Rattle.std.specs.Prelude.{◌≡◌, ◌-◌, ◌≤◌, length};
ghost use Rattle.index_model.specs.Index.{Lent, sequences_in};
ghost use Rattle.map_candidates.specs.Cursor.{CursorIn};
ghost use Rattle.map_cursor.specs.Advance.{raised_by, examined_more, step_on, Advanced};

use index_model::ranked::RankedTargets;
use map_by_index::work::MappingWork;
use map_candidates::cursor::{Candidate, OrientationCursor};

// A cursor, its work and its candidate.
#[derive(Clone, Copy)]
pub struct Step {
    pub cursor: OrientationCursor,
    pub work: MappingWork,
    pub candidate: Candidate,
}

// A count with some more, or the largest one where it would pass that.
fn raised_by(count: u64, more: u64) -> u64
    ensures { result ≡ raised_by count more }
{
    if 18446744073709551615 - count < more {
        return 18446744073709551615;
    }
    count + more
}

// The work with the postings from one place up to another examined.
fn examined_to(work: MappingWork, from: usize, to: usize) -> MappingWork
    requires { from ≤ to }
    ensures { result ≡ examined_more work (to - from) }
{
    let passed = (to - from) as u64;
    let examined = raised_by(work.examined, passed);
    MappingWork {
        lookups: work.lookups,
        hits: work.hits,
        examined,
        comparisons: work.comparisons,
        seen: work.seen,
    }
}

// What moving on comes to: the candidate, its cursor, and the work with the postings that were gone past.
fn counted(from: OrientationCursor, work: MappingWork, next: Candidate) -> Step
    requires { from.next ≤ next.cursor.next }
    ensures { result ≡ step_on from work next }
{
    let moved = next.cursor;
    let counts = examined_to(work, from.next, moved.next);
    Step {
        cursor: moved,
        work: counts,
        candidate: next,
    }
}

// Moves the cursor on to its next candidate, and counts the postings that it went past as examined.
pub fn advance(
    cursor: &mut OrientationCursor,
    work: &mut MappingWork,
    targets: RankedTargets<'_, '_>,
    ranks: &[u64],
    positions: &[u64],
    n: usize,
) -> Candidate
    requires { Lent targets.bases.now targets.ends.now targets.ranked.now × CursorIn ranks.now positions.now (length targets.ranked.now) cursor.old.next cursor.old.end }
    ensures { Advanced (sequences_in targets.entry) n ranks.now positions.now cursor.old work.old result cursor.new work.new }
{
    let from = *cursor;
    let next = from.next_candidate(targets, ranks, positions, n);
    let step = counted(from, *work, next);
    *cursor = step.cursor;
    *work = step.work;
    step.candidate
}

// The same by value.
pub fn advanced(
    cursor: OrientationCursor,
    work: MappingWork,
    targets: RankedTargets<'_, '_>,
    ranks: &[u64],
    positions: &[u64],
    n: usize,
) -> Step
    requires { Lent targets.bases.now targets.ends.now targets.ranked.now × CursorIn ranks.now positions.now (length targets.ranked.now) cursor.next cursor.end }
    ensures { Advanced (sequences_in targets.entry) n ranks.now positions.now cursor work result.candidate result.cursor result.work }
{
    let mut c = cursor;
    let mut w = work;
    let candidate = advance(&mut c, &mut w, targets, ranks, positions, n);
    Step {
        cursor: c,
        work: w,
        candidate,
    }
}
