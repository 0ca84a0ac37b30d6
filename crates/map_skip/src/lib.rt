// Candidates that are passed over: they differ from the read where the candidate in front of them did, and so they are counted
// and not compared.
#![tactic(auto)]

ghost use Rattle.std.specs.Prelude.{◌≤◌, length};
ghost use Rattle.index_model.specs.Index.{sequences_in};
ghost use Rattle.map_places.specs.Place.{Laid};
ghost use Rattle.map_every_start.specs.Searched.{Searchable};
ghost use Rattle.map_skip.specs.Passing.{PassedOver, Skipped, Sooner, SaidToBeFollowed, CandidateLent, SidesLent};

use index_lookup::read::{posting_position, posting_rank};
use index_model::ranked::{RankedTargets, ranked_sequence};
use map_candidates::cursor::{Candidate, OrientationCursor, has_room};
use map_candidates::sides::Sides;
use map_places::differing::{differs_at, place_of_doubt};

// The candidate of one side behind those that were passed over, and their number.
#[derive(Clone, Copy)]
pub struct SidePassed {
    pub candidate: Candidate,
    pub count: usize,
}

// Both sides behind the candidates that were passed over, and their number.
#[derive(Clone, Copy)]
pub struct Passed {
    pub sides: Sides,
    pub count: usize,
}

// Starts below this come before the candidate of the other side, in the sequence of a rank.
fn limit_before(rank: usize, other: Candidate) -> usize
    ensures { Sooner rank result other }
{
    if !other.found || rank < other.rank {
        return usize::MAX;
    }
    if other.rank < rank {
        return 0;
    }
    other.start
}

// Whether the candidate at a start differs at a place of its sequence, and posting i has the next one there.
fn is_followed(
    sequence: &[u8],
    read: &[u8],
    ranks: &[u64],
    positions: &[u64],
    cursor: OrientationCursor,
    rank: usize,
    limit: usize,
    place: usize,
    start: usize,
    i: usize,
) -> bool
    requires laid { Laid sequence.now start read.now }
    requires end_in_bounds { (cursor.end ≤ length ranks.now) × (cursor.end ≤ length positions.now) }
    ensures { SaidToBeFollowed result sequence.now read.now ranks.now positions.now cursor rank limit start i }
{
    i < cursor.end
        && start < limit
        && posting_rank(ranks, i) == rank
        && differs_at(sequence, start, read, cursor.strand, place)
        && has_room(
            sequence,
            read.len(),
            cursor.offset,
            posting_position(positions, i),
        )
}

// Passes over the candidates of one side that differ at a place of the first one's sequence, up to a limit.
fn pass_side(
    first: Candidate,
    targets: RankedTargets<'_, '_>,
    ranks: &[u64],
    positions: &[u64],
    read: &[u8],
    limit: usize,
    place: usize,
) -> SidePassed
    requires searchable { Searchable targets.bases.now targets.ends.now targets.ranked.now read.now }
    requires candidate_lent { CandidateLent targets.bases.now targets.ends.now targets.ranked.now ranks.now positions.now read.now first }
    ensures { Skipped (sequences_in targets.entry) read.now ranks.now positions.now first.rank limit result.count first result.candidate }
{
    let sequence = ranked_sequence(targets, first.rank);
    let cursor = first.cursor;
    let mut start = first.start;
    let mut i = cursor.next;
    let mut count = 0;
    while is_followed(
        sequence, read, ranks, positions, cursor, first.rank, limit, place, start, i,
    ) {
        start = posting_position(positions, i) - cursor.offset;
        i += 1;
        count += 1;
    }
    SidePassed {
        candidate: Candidate {
            cursor: OrientationCursor {
                strand: cursor.strand,
                offset: cursor.offset,
                next: i,
                end: cursor.end,
            },
            found: true,
            rank: first.rank,
            start,
        },
        count,
    }
}

// Passes over candidates that differ where the one that was compared last does; none, if nobody looks.
pub fn pass(
    look: bool,
    compared: Candidate,
    sides: Sides,
    targets: RankedTargets<'_, '_>,
    ranks: &[u64],
    positions: &[u64],
    read: &[u8],
) -> Passed
    requires searchable { Searchable targets.bases.now targets.ends.now targets.ranked.now read.now }
    requires sides_lent { SidesLent targets.bases.now targets.ends.now targets.ranked.now ranks.now positions.now read.now compared sides }
    ensures { PassedOver (sequences_in targets.entry) read.now ranks.now positions.now result.count sides result.sides }
{
    if !look || !sides.waits() {
        return Passed { sides, count: 0 };
    }
    let sequence = ranked_sequence(targets, compared.rank);
    let place = place_of_doubt(sequence, compared.start, read, compared.cursor.strand);
    let plus = sides.plus_first();
    let first = sides.side(plus);
    let other = sides.side(!plus);
    let limit = limit_before(first.rank, other);
    let passed = pass_side(first, targets, ranks, positions, read, limit, place);
    let candidate = passed.candidate;
    if plus {
        return Passed {
            sides: Sides {
                plus: candidate,
                minus: other,
            },
            count: passed.count,
        };
    }
    Passed {
        sides: Sides {
            plus: other,
            minus: candidate,
        },
        count: passed.count,
    }
}
