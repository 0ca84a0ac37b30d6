// One read observed: searched into its part of the entries, or not searched.
#![tactic(auto)]

ghost use Rattle.std.specs.Prelude.{◌≡◌, cond, ◌+◌, ◌≤◌, length};
ghost use Rattle.index_model.specs.Index.{sequences_in};
ghost use Rattle.map_answers.specs.Answer.{row};
ghost use Rattle.audit_model.specs.Observing.{no_work};
ghost use Rattle.audit_model.specs.Calls.{mapping_row};
ghost use Rattle.audit_observe_read.specs.Observed.{way_if, Observable, ReadPassed, ReadObserved};

use audit_model::settings::Settings;
use index_columns::LentIndex;
use index_lookup::lookup::NOWHERE;
use index_model::ranked::RankedTargets;
use map_answers::answer::{Mapping, ReadState};
use map_by_index::work::work_of;
use map_every_start::visit::Tally;
use map_search::{search_every_start, search_part};
use promises::refusal::Refusal;

// The answer for a read that is not searched.
fn unsearched(remap: bool) -> Mapping
    ensures { mapping_row result ≡ row (cond remap 1 0) 0 no_work }
{
    let work = work_of(
        0,
        0,
        0,
        Tally {
            comparisons: 0,
            seen: 0,
        },
    );
    if remap {
        return Mapping {
            state: ReadState::Ineligible,
            groups: 0,
            work,
        };
    }
    Mapping {
        state: ReadState::NotRequested,
        groups: 0,
        work,
    }
}

// Observes one read into `width` numbers of the entries from a place on.
pub fn search_read(
    entries: &mut [u64],
    from: usize,
    width: usize,
    targets: RankedTargets<'_, '_>,
    index: LentIndex<'_>,
    indexed: bool,
    q: usize,
    read: &[u8],
    searched: bool,
    settings: Settings,
) -> Result<Mapping, Refusal>
    requires observable { Observable indexed q targets.bases.now targets.ends.now targets.ranked.now index.keys.now index.ranks.now index.positions.now × ReadPassed searched read.now }
    requires width_in_bounds { from + width ≤ length entries.old }
    ensures { ReadObserved settings (sequences_in targets.entry) (way_if indexed q) targets.entry.ranked.now read.now searched from width result entries.old entries.new }
{
    if !searched {
        return Ok(unsearched(settings.remap));
    }
    if indexed {
        return search_part(
            entries,
            from,
            width,
            targets,
            index,
            q,
            read,
            settings.limit,
            NOWHERE,
            NOWHERE,
        );
    }
    let end = from + width;
    search_every_start(&mut entries[from..end], targets, read, settings.limit)
}
