// The reads of a fragment observed, each into its part of the entries.
#![tactic(auto)]

ghost use Rattle.std.specs.Prelude.{◌≡◌, ◌+◌, ◌≤◌, length};
ghost use Rattle.index_model.specs.Index.{sequences_in};
ghost use Rattle.audit_model.specs.Fragment.{share_of};
ghost use Rattle.audit_observe_read.specs.Observed.{way_if, Observable, ReadPassed};
ghost use Rattle.audit_observe_reads.specs.Reads.{observed_reads, SecondObserved, ReadsObserved};

use audit_model::calls::{FragmentRows, Mates};
use audit_model::settings::{AuditInputMode, Settings};
use audit_observe_read::search_read;
use index_columns::LentIndex;
use index_model::ranked::RankedTargets;
use map_answers::answer::Mapping;
use map_every_start::entries::clear_entries;
use promises::refusal::Refusal;

// How many of the entries each read gets.
pub fn share_of(mode: AuditInputMode, entries: usize) -> usize
    ensures { result ≡ share_of mode entries }
{
    match mode {
        AuditInputMode::SingleEnd => entries,
        AuditInputMode::PairedEnd => entries / 2,
    }
}

// Observes the second read of a pair, whose first one is mapped.
fn search_second(
    entries: &mut [u64],
    width: usize,
    targets: RankedTargets<'_, '_>,
    index: LentIndex<'_>,
    indexed: bool,
    q: usize,
    read: &[u8],
    searched: bool,
    settings: Settings,
    first: Mapping,
) -> Result<FragmentRows, Refusal>
    requires observable { Observable indexed q targets.bases.now targets.ends.now targets.ranked.now index.keys.now index.ranks.now index.positions.now × ReadPassed searched read.now }
    requires width_in_bounds { width + width ≤ length entries.old }
    ensures { SecondObserved settings (sequences_in targets.entry) (way_if indexed q) targets.entry.ranked.now read.now searched width first result entries.old entries.new }
{
    let second = search_read(
        entries, width, width, targets, index, indexed, q, read, searched, settings,
    )?;
    Ok(FragmentRows::Paired(Mates { first, second }))
}

// Observes the reads of a fragment: 10 with every entry zero, or their rows, and their groups in the entries.
pub fn search_reads(
    entries: &mut [u64],
    targets: RankedTargets<'_, '_>,
    index: LentIndex<'_>,
    indexed: bool,
    q: usize,
    first: &[u8],
    first_searched: bool,
    second: &[u8],
    second_searched: bool,
    settings: Settings,
) -> Result<FragmentRows, Refusal>
    requires observable { Observable indexed q targets.bases.now targets.ends.now targets.ranked.now index.keys.now index.ranks.now index.positions.now }
    requires read_passed { ReadPassed first_searched first.now × ReadPassed second_searched second.now }
    ensures { ReadsObserved settings (sequences_in targets.entry) (way_if indexed q) targets.entry.ranked.now (observed_reads settings first_searched first.now second_searched second.now) result entries.old entries.new }
{
    let mode = settings.mode;
    clear_entries(entries);
    let width = 4 * share_of(mode, entries.len() / 4);
    let one = search_read(
        entries,
        0,
        width,
        targets,
        index,
        indexed,
        q,
        first,
        first_searched,
        settings,
    );
    let Ok(mapping) = one else {
        clear_entries(entries);
        return Err(Refusal::PlacementRoom);
    };
    let AuditInputMode::PairedEnd = mode else {
        return Ok(FragmentRows::Single(mapping));
    };
    let both = search_second(
        entries,
        width,
        targets,
        index,
        indexed,
        q,
        second,
        second_searched,
        settings,
        mapping,
    );
    match both {
        Ok(rows) => Ok(rows),
        Err(refusal) => {
            clear_entries(entries);
            Err(refusal)
        }
    }
}
