// One place of a read: compared, counted, and entered where the read matches.
ghost use Rattle.std.specs.Prelude.{◌≡◌, ◌+◌, ◌≤◌, length};
ghost use Rattle.index_model.specs.Index.{sequences_in};
ghost use Rattle.map_every_start.specs.Searched.{max_count, Searchable, FitsAt, Going, PlaceSearched};

use crate::entries::write_entry;
use index_model::ranked::{RankedTargets, ranked_sequence};
use map_places::stands_at;

// The places compared so far, and the matches among them.
#[derive(Clone, Copy)]
pub struct Tally {
    pub comparisons: u64,
    pub seen: usize,
}

// Where a read that stands at a start ends.
fn end_of(start: usize, read: &[u8]) -> usize
    requires { start + length read.now ≤ max_count }
    ensures { result ≡ start + length read.now }
{
    start + read.len()
}

// Compares a read at a place. A match within the bound is entered behind those seen before.
pub fn visit(
    entries: &mut [u64],
    targets: RankedTargets<'_, '_>,
    read: &[u8],
    bound: usize,
    rank: usize,
    start: usize,
    strand: u64,
    tally: Tally,
) -> Tally
    requires searchable { Searchable targets.bases.now targets.ends.now targets.ranked.now read.now }
    requires fits_at { FitsAt targets.bases.now targets.ends.now targets.ranked.now read.now rank start strand × Going bound 1 tally.comparisons tally.seen entries.old }
    ensures { PlaceSearched (sequences_in targets.entry) targets.entry.ranked.now read.now bound rank start strand tally entries.old result entries.new }
{
    let comparisons = tally.comparisons + 1;
    let seen = tally.seen;
    let sequence = ranked_sequence(targets, rank);
    if !stands_at(sequence, start, read, strand) {
        return Tally { comparisons, seen };
    }
    if bound <= seen {
        return Tally {
            comparisons,
            seen: seen + 1,
        };
    }
    let target = targets.ranked[rank];
    let end = end_of(start, read);
    write_entry(entries, seen, target, start, end, strand);
    Tally {
        comparisons,
        seen: seen + 1,
    }
}
