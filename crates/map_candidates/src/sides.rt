// The two cursors of a search, each with the candidate that waits on it.
ghost use Rattle.std.specs.Prelude.{◌≡◌, ◌||◌, cond, length};
ghost use Rattle.index_model.specs.Index.{Lent, sequences_in};
ghost use Rattle.map_candidates.specs.Cursor.{CursorsIn, plus_first, BothTaken, OneMoved};

use crate::cursor::{Candidate, OrientationCursor};
use index_model::ranked::RankedTargets;

#[derive(Clone, Copy)]
pub struct Sides {
    pub plus: Candidate,
    pub minus: Candidate,
}

// Both cursors take their first candidate.
pub fn first_candidates(
    plus: OrientationCursor,
    minus: OrientationCursor,
    targets: RankedTargets<'_, '_>,
    ranks: &[u64],
    positions: &[u64],
    n: usize,
) -> Sides
    requires { Lent targets.bases.now targets.ends.now targets.ranked.now × CursorsIn ranks.now positions.now (length targets.ranked.now) plus minus }
    ensures { BothTaken (sequences_in targets.entry) n ranks.now positions.now plus minus result }
{
    let forward = plus.next_candidate(targets, ranks, positions, n);
    let backward = minus.next_candidate(targets, ranks, positions, n);
    Sides {
        plus: forward,
        minus: backward,
    }
}

impl Sides {
    // Whether a candidate waits on either side.
    pub fn waits(self) -> bool
        ensures { result ≡ (self.plus.found || self.minus.found) }
    {
        self.plus.found || self.minus.found
    }

    // Whether the candidate of '+' is the smaller one by rank, start and strand.
    pub fn plus_first(self) -> bool
        ensures { result ≡ plus_first self }
    {
        if !self.plus.found {
            return false;
        }
        if !self.minus.found {
            return true;
        }
        if self.plus.rank != self.minus.rank {
            return self.plus.rank < self.minus.rank;
        }
        self.plus.start <= self.minus.start
    }

    // The candidate of one side.
    pub fn side(self, plus: bool) -> Candidate
        ensures { result ≡ cond plus self.plus self.minus }
    {
        if plus { self.plus } else { self.minus }
    }

    // One side moves on.
    pub fn moved(
        self,
        plus: bool,
        targets: RankedTargets<'_, '_>,
        ranks: &[u64],
        positions: &[u64],
        n: usize,
    ) -> Sides
        requires { Lent targets.bases.now targets.ends.now targets.ranked.now × CursorsIn ranks.now positions.now (length targets.ranked.now) self.plus.cursor self.minus.cursor }
        ensures { OneMoved (sequences_in targets.entry) n ranks.now positions.now plus self result }
    {
        let forward = self.plus;
        let backward = self.minus;
        if plus {
            let cursor = forward.cursor;
            let next = cursor.next_candidate(targets, ranks, positions, n);
            return Sides {
                plus: next,
                minus: backward,
            };
        }
        let cursor = backward.cursor;
        let next = cursor.next_candidate(targets, ranks, positions, n);
        Sides {
            plus: forward,
            minus: next,
        }
    }
}
