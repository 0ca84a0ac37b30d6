// The sequences of the mapped targets, by rank.
ghost use Rattle.std.specs.Prelude.{◌≡◌, [], ◌<◌, length, get_or};
ghost use Rattle.index_seeds.specs.Window.{starts};
ghost use Rattle.index_seeds.specs.Key.{SeedLength};
ghost use Rattle.index_model.specs.Index.{all_seeds, Lent, sequences_in};

use identifiers::sequences::sequence_at;

// Bases of targets with their ends, and the places of the mapped targets by rank. A sequence lives as long as the bases.
#[derive(Clone, Copy)]
pub struct RankedTargets<'a, 'b> {
    pub bases: &'a [u8],
    pub ends: &'b [usize],
    pub ranked: &'b [usize],
}

// The sequence of a rank.
pub fn ranked_sequence<'a, 'b>(targets: RankedTargets<'a, 'b>, rank: usize) -> &'a [u8]
    requires { Lent targets.bases.now targets.ends.now targets.ranked.now × (rank < length targets.ranked.now) }
    ensures { result.now ≡ get_or (sequences_in targets.entry) rank [] }
{
    let place = targets.ranked[rank];
    sequence_at(targets.bases, targets.ends, place)
}

// How many seeds of q bases a sequence has.
fn count_starts(sequence: &[u8], q: usize) -> usize
    requires { SeedLength q }
    ensures { result ≡ starts q sequence.now }
{
    if sequence.len() < q {
        return 0;
    }
    sequence.len() - q + 1
}

// How many postings all ranked sequences have.
pub fn count_postings(targets: RankedTargets<'_, '_>, q: usize) -> usize
    requires { Lent targets.bases.now targets.ends.now targets.ranked.now × SeedLength q }
    ensures { result ≡ length (all_seeds q 0 (sequences_in targets.entry)) }
{
    let mut count = 0;
    for rank in 0..targets.ranked.len() {
        let sequence = ranked_sequence(targets, rank);
        count += count_starts(sequence, q);
    }
    count
}
