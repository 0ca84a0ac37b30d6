// The rarest seed of a read on a strand: the first offset with fewest postings.
#![tactic(auto)]

ghost use Rattle.std.specs.Prelude.{◌+◌, ◌≤◌};
ghost use Rattle.bases.specs.Read.{oriented};
ghost use Rattle.map_places.specs.Place.{max_read};
ghost use Rattle.map_candidates.specs.Search.{Rarest};
ghost use Rattle.map_rarest_seed.specs.Shown.{ChoiceLent};
ghost use Rattle.map_rarest_seed.specs.Choosing.{Better, Counted};

use bases::base::table;
use index_columns::LentIndex;
use index_lookup::lookup::{NOWHERE, Range, posting_range};
use index_model::ranked::RankedTargets;
use index_seeds::keys::key_at;
use map_places::looking::looks_again;
use showing::shown;

pub mod showing;

// A seed's offset, the places of its postings from start up to end, and the lookups made so far.
#[derive(Clone, Copy)]
pub struct SeedChoice {
    pub offset: usize,
    pub start: usize,
    pub end: usize,
    pub lookups: u64,
}

impl SeedChoice {
    // The rarer of this seed and one more that was looked up; of equals this one.
    fn or(self, offset: usize, range: Range) -> SeedChoice
        requires { (self.start ≤ self.end) × ((range.start ≤ range.end) × (self.lookups + 1 ≤ max_read + 1)) }
        ensures { Better self.offset self.start self.end self.lookups offset range.start range.end result.offset result.start result.end result.lookups }
    {
        let lookups = self.lookups + 1;
        if range.end - range.start < self.end - self.start {
            return SeedChoice {
                offset,
                start: range.start,
                end: range.end,
                lookups,
            };
        }
        SeedChoice {
            offset: self.offset,
            start: self.start,
            end: self.end,
            lookups,
        }
    }

    // This seed, with as many lookups more that need not be made.
    fn counted(self, n: usize) -> SeedChoice
        requires { self.lookups + n ≤ max_read + 1 }
        ensures { Counted self.offset self.start self.end self.lookups n result.offset result.start result.end result.lookups }
    {
        SeedChoice {
            offset: self.offset,
            start: self.start,
            end: self.end,
            lookups: self.lookups + n as u64,
        }
    }
}

// Looks the seeds of a read up, offset by offset, and stops after a lookup that finds none. Offsets that are known to have no fewer
// postings are counted, and not looked up. The first lookup begins near a place that is told.
pub fn rarest_seed(
    targets: RankedTargets<'_, '_>,
    index: LentIndex<'_>,
    q: usize,
    read: &[u8],
    strand: u64,
    near: usize,
) -> SeedChoice
    requires { ChoiceLent q targets.bases.now targets.ends.now targets.ranked.now index.keys.now index.ranks.now index.positions.now read.now }
    ensures { Rarest index.entry.keys.now q (oriented strand read.now) result.offset result.start result.end result.lookups }
{
    let table = table();
    let n = read.len() - q + 1;
    let mut range = posting_range(index.keys, key_at(&table, read, strand, q, 0), near);
    let mut best = SeedChoice {
        offset: 0,
        start: range.start,
        end: range.end,
        lookups: 1,
    };
    let mut look = true;
    let mut o: usize = 0;
    while o + 1 < n {
        if best.start == best.end {
            return best;
        }
        let skip = shown(
            look,
            targets,
            index.ranks,
            index.positions,
            range.start,
            range.end,
            q,
            read,
            strand,
            o,
            n - 1 - o,
        );
        best = best.counted(skip);
        o += skip + 1;
        look = looks_again(skip, o);
        if n <= o {
            return best;
        }
        range = posting_range(index.keys, key_at(&table, read, strand, q, o), NOWHERE);
        best = best.or(o, range);
    }
    best
}
