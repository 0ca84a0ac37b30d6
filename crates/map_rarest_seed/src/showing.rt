// How many offsets behind a seed have no fewer postings, as far as its own postings show.
ghost use Rattle.bases.specs.Read.{oriented};
ghost use Rattle.index_model.specs.Index.{sequences_in};
ghost use Rattle.map_rarest_seed.specs.Shown.{PostingLent, Behind, ShowLent, Shown};

use buffers::least;
use index_lookup::read::{posting_position, posting_rank};
use index_model::ranked::{RankedTargets, ranked_sequence};
use map_places::agreeing::agreement;

// The most postings, and the most bases behind each, that are looked at: no more than a lookup costs.
const MOST_POSTINGS: usize = 32;

const MOST_BASES: usize = 128;

// How many bases behind a posting agree with those behind the seed at offset o, up to a bound and to the target's last base.
fn behind_posting(
    targets: RankedTargets<'_, '_>,
    rank: usize,
    position: usize,
    q: usize,
    read: &[u8],
    strand: u64,
    o: usize,
    most: usize,
) -> usize
    requires { PostingLent targets.bases.now targets.ends.now targets.ranked.now rank position q read.now o most }
    ensures { Behind q (sequences_in targets.entry) rank position (oriented strand read.now) o most result }
{
    let sequence = ranked_sequence(targets, rank);
    let at = position + q;
    let room = least(most, sequence.len() - at);
    agreement(sequence, at, read, strand, o + q, room)
}

// How many bases agree behind each posting from start up to end.
fn behind_all(
    targets: RankedTargets<'_, '_>,
    ranks: &[u64],
    positions: &[u64],
    start: usize,
    end: usize,
    q: usize,
    read: &[u8],
    strand: u64,
    o: usize,
    most: usize,
) -> usize
    requires { ShowLent q targets.bases.now targets.ends.now targets.ranked.now ranks.now positions.now read.now o start end most }
    ensures { Shown q (sequences_in targets.entry) ranks.now positions.now (oriented strand read.now) o start end most result }
{
    let mut left = most;
    for i in start..end {
        if left == 0 {
            return 0;
        }
        let rank = posting_rank(ranks, i);
        let position = posting_position(positions, i);
        left = behind_posting(targets, rank, position, q, read, strand, o, left);
    }
    left
}

// How many of the `most` offsets behind offset o are known to have no fewer postings than the seed there; none if nobody looks.
pub fn shown(
    look: bool,
    targets: RankedTargets<'_, '_>,
    ranks: &[u64],
    positions: &[u64],
    start: usize,
    end: usize,
    q: usize,
    read: &[u8],
    strand: u64,
    o: usize,
    most: usize,
) -> usize
    requires { ShowLent q targets.bases.now targets.ends.now targets.ranked.now ranks.now positions.now read.now o start end most }
    ensures { Shown q (sequences_in targets.entry) ranks.now positions.now (oriented strand read.now) o start end most result }
{
    if !look || MOST_POSTINGS < end - start {
        return 0;
    }
    let bound = least(most, MOST_BASES);
    behind_all(
        targets, ranks, positions, start, end, q, read, strand, o, bound,
    )
}
