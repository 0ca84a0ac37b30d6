// The search at every start: each fitting start of each sequence by rank, '+' then '-', up to the first match past the bound.
ghost use Rattle.std.specs.Prelude.{◌<◌, length};
ghost use Rattle.index_model.specs.Index.{sequences_in};
ghost use Rattle.map_every_start.specs.Searched.{max_places, Searchable, FitsAt, Going, StartSearched, SequenceSearched, AllSearched};

use crate::visit::{Tally, visit};
use index_model::ranked::{RankedTargets, ranked_sequence};

// Both strands at a start.
fn visit_both(
    entries: &mut [u64],
    targets: RankedTargets<'_, '_>,
    read: &[u8],
    bound: usize,
    rank: usize,
    start: usize,
    tally: Tally,
) -> Tally
    requires searchable { Searchable targets.bases.now targets.ends.now targets.ranked.now read.now }
    requires fits_at { FitsAt targets.bases.now targets.ends.now targets.ranked.now read.now rank start 0 × Going bound 2 tally.comparisons tally.seen entries.old }
    ensures { StartSearched (sequences_in targets.entry) targets.entry.ranked.now read.now bound rank start tally entries.old result entries.new }
{
    let forward = visit(entries, targets, read, bound, rank, start, 0, tally);
    if bound < forward.seen {
        return forward;
    }
    visit(entries, targets, read, bound, rank, start, 1, forward)
}

// Every fitting start of the sequence of a rank.
fn scan_sequence(
    entries: &mut [u64],
    targets: RankedTargets<'_, '_>,
    read: &[u8],
    bound: usize,
    rank: usize,
    tally: Tally,
) -> Tally
    requires searchable { Searchable targets.bases.now targets.ends.now targets.ranked.now read.now }
    requires rank_in_bounds { (rank < length targets.ranked.now) × Going bound max_places tally.comparisons tally.seen entries.old }
    ensures { SequenceSearched (sequences_in targets.entry) targets.entry.ranked.now read.now bound rank tally entries.old result entries.new }
{
    let sequence = ranked_sequence(targets, rank);
    let starts = (sequence.len() + 1).saturating_sub(read.len());
    let mut so_far = tally;
    for start in 0..starts {
        so_far = visit_both(entries, targets, read, bound, rank, start, so_far);
        if bound < so_far.seen {
            return so_far;
        }
    }
    so_far
}

// Every fitting start of every sequence.
pub fn scan(entries: &mut [u64], targets: RankedTargets<'_, '_>, read: &[u8], bound: usize) -> Tally
    requires { Searchable targets.bases.now targets.ends.now targets.ranked.now read.now × Going bound 0 0 0 entries.old }
    ensures { AllSearched (sequences_in targets.entry) targets.entry.ranked.now read.now bound entries.old result entries.new }
{
    let mut tally = Tally {
        comparisons: 0,
        seen: 0,
    };
    for rank in 0..targets.ranked.len() {
        tally = scan_sequence(entries, targets, read, bound, rank, tally);
        if bound < tally.seen {
            return tally;
        }
    }
    tally
}
