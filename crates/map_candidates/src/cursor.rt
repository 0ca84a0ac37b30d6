// The candidates of a seed's postings, one after the other.
ghost use Rattle.std.specs.Prelude.{◌≡◌, length};
ghost use Rattle.index_model.specs.Index.{Lent, sequences_in};
ghost use Rattle.map_candidates.specs.Search.{fits};
ghost use Rattle.map_candidates.specs.Cursor.{CursorIn, Taken};

use index_lookup::read::{posting_position, posting_rank};
use index_model::ranked::{RankedTargets, ranked_sequence};

// The postings from next up to end of a seed that stands at an offset of the read on a strand.
#[derive(Clone, Copy)]
pub struct OrientationCursor {
    pub strand: u64,
    pub offset: usize,
    pub next: usize,
    pub end: usize,
}

// A moved cursor, and the rank and start of its candidate if one was found.
#[derive(Clone, Copy)]
pub struct Candidate {
    pub cursor: OrientationCursor,
    pub found: bool,
    pub rank: usize,
    pub start: usize,
}

// Whether a target has room for a read of n bases whose base `offset` stands at a position.
pub fn has_room(sequence: &[u8], n: usize, offset: usize, position: usize) -> bool
    ensures { result ≡ fits sequence.now n offset position }
{
    offset <= position && n <= sequence.len() && position - offset <= sequence.len() - n
}

impl OrientationCursor {
    // Moves on behind the next posting whose candidate, of n bases, lies within its target, or to the end.
    pub fn next_candidate(
        self,
        targets: RankedTargets<'_, '_>,
        ranks: &[u64],
        positions: &[u64],
        n: usize,
    ) -> Candidate
        requires { Lent targets.bases.now targets.ends.now targets.ranked.now × CursorIn ranks.now positions.now (length targets.ranked.now) self.next self.end }
        ensures { Taken (sequences_in targets.entry) n ranks.now positions.now self result }
    {
        for i in self.next..self.end {
            let rank = posting_rank(ranks, i);
            let position = posting_position(positions, i);
            let sequence = ranked_sequence(targets, rank);
            if has_room(sequence, n, self.offset, position) {
                let start = position - self.offset;
                return Candidate {
                    cursor: OrientationCursor {
                        strand: self.strand,
                        offset: self.offset,
                        next: i + 1,
                        end: self.end,
                    },
                    found: true,
                    rank,
                    start,
                };
            }
        }
        Candidate {
            cursor: OrientationCursor {
                strand: self.strand,
                offset: self.offset,
                next: self.end,
                end: self.end,
            },
            found: false,
            rank: 0,
            start: 0,
        }
    }
}
