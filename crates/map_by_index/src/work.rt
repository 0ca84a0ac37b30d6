// The work counts of a search.
ghost use Rattle.std.specs.Prelude.{◌≡◌};
ghost use Rattle.map_by_index.specs.Work.{work_of};

use map_every_start::visit::Tally;

// Lookups, postings of the chosen seeds, postings examined, full comparisons, and matches seen.
#[derive(Clone, Copy)]
pub struct MappingWork {
    pub lookups: u64,
    pub hits: u64,
    pub examined: u64,
    pub comparisons: u64,
    pub seen: u64,
}

// The work of a search: what was looked up, and what comparing counted.
pub fn work_of(lookups: u64, hits: u64, examined: u64, tally: Tally) -> MappingWork
    ensures { result ≡ work_of lookups hits examined tally }
{
    MappingWork {
        lookups,
        hits,
        examined,
        comparisons: tally.comparisons,
        seen: tally.seen as u64,
    }
}
