// Many fragments in one call: the catalogue and the index are tested once.
#![tactic(auto)]

ghost use Rattle.std.specs.Prelude.{true, ◌≤◌};
ghost use Rattle.bases.specs.Eligibility.{last_quality};
ghost use Rattle.catalogue.specs.Catalogue.{catalogue_in};
ghost use Rattle.index_seeds.specs.Key.{SeedLength};
ghost use Rattle.index_model.specs.Index.{sequences_in};
ghost use Rattle.audit_ledger.specs.Booking.{counters_of, left_counters};
ghost use Rattle.audit_model.specs.Settings.{audit_seed, audit_offset};
ghost use Rattle.audit_model.specs.Calls.{lent_held, lent_index};
ghost use Rattle.audit_observe_read.specs.Observed.{way_if};
ghost use Rattle.audit_tested.specs.Tested.{Tested};
ghost use Rattle.batch_lists.specs.Lists.{reads_in, lent_fragments};
ghost use Rattle.batch_lists.specs.Listed.{AuditsList};
ghost use Rattle.batch_audit.specs.Tested.{TestedList};

use audit_checks::check_opening;
use audit_ledger::LentCounters;
use audit_model::settings::{AUDIT_OFFSET, AUDIT_SEED, AuditState};
use batch_fragments::audit_list;
use batch_lists::{FragmentsAudit, LentReads, lists_fit};
use batch_map::share_of;
use catalogue::lent::LentCatalogue;
use index_columns::LentIndex;
use index_model::ranked::RankedTargets;
use promises::refusal::Refusal;

// Audits the fragments of a list in a catalogue that was tested: 25, or each audited with its share.
fn audit_fitting(
    rows: &mut [u64],
    entries: &mut [u64],
    placements: &mut [u64],
    singles: &mut [u64],
    multi: &mut [u64],
    index: LentIndex<'_>,
    targets: RankedTargets<'_, '_>,
    ordinals: &[u64],
    counts: &[u64],
    reads: LentReads<'_>,
    indexed: bool,
    q: usize,
    offset: u8,
    state: AuditState,
) -> FragmentsAudit
    requires { Tested indexed q targets.bases.now targets.ends.now targets.ranked.now index.keys.now index.ranks.now index.positions.now state.settings
        (counters_of placements.old singles.old multi.old) }
    ensures { TestedList offset (sequences_in targets.entry) (way_if indexed q) targets.entry.ranked.now (lent_index indexed index.entry.keys.now index.entry.ranks.now index.entry.positions.now) (lent_held state placements.old singles.old multi.old)
        (lent_fragments ordinals.now counts.now (reads_in reads.entry))
        result (left_counters placements.new singles.new multi.new) rows.old entries.old rows.new entries.new }
{
    if !lists_fit(ordinals, counts, reads, rows.len()) {
        return FragmentsAudit {
            answer: Err(Refusal::ReadList),
            state,
        };
    }
    let share = share_of(entries.len() / 4, ordinals.len());
    let after = audit_list(
        rows,
        entries,
        placements,
        singles,
        multi,
        index,
        targets,
        ordinals,
        counts,
        reads,
        4 * share,
        indexed,
        q,
        offset,
        state,
    );
    FragmentsAudit {
        answer: Ok(()),
        state: after,
    }
}

// Audits many fragments with seeds of q bases and qualities from an offset on: refused, or each audited with its share.
pub fn audit_fragments(
    rows: &mut [u64],
    entries: &mut [u64],
    placements: &mut [u64],
    singles: &mut [u64],
    multi: &mut [u64],
    index: LentIndex<'_>,
    catalogue: LentCatalogue<'_>,
    ordinals: &[u64],
    counts: &[u64],
    reads: LentReads<'_>,
    indexed: bool,
    q: usize,
    offset: u8,
    state: AuditState,
) -> FragmentsAudit
    requires { SeedLength q × (offset ≤ last_quality) }
    ensures { AuditsList q offset (catalogue_in catalogue.entry) (lent_index indexed index.entry.keys.now index.entry.ranks.now index.entry.positions.now) (lent_held state placements.old singles.old multi.old)
        (lent_fragments ordinals.now counts.now (reads_in reads.entry))
        result (left_counters placements.new singles.new multi.new) rows.old entries.old rows.new entries.new }
{
    let mut ranked = [0usize; 4096];
    let settings = state.settings;
    let ranking = check_opening(
        &mut ranked,
        LentCounters {
            placements,
            singles,
            multi,
        },
        index,
        catalogue,
        indexed,
        q,
        offset,
        settings,
    );
    match ranking {
        Err(refusal) => FragmentsAudit {
            answer: Err(refusal),
            state,
        },
        Ok(k) => audit_fitting(
            rows,
            entries,
            placements,
            singles,
            multi,
            index,
            RankedTargets {
                bases: catalogue.bases,
                ends: catalogue.base_ends,
                ranked: &ranked[..k],
            },
            ordinals,
            counts,
            reads,
            indexed,
            q,
            offset,
            state,
        ),
    }
}

// Audits many fragments by the index: refused with nothing written, or what single calls give one after the other, each read in
// its row and each fragment in its share of the entries.
pub fn fragments(
    rows: &mut [u64],
    entries: &mut [u64],
    placements: &mut [u64],
    singles: &mut [u64],
    multi: &mut [u64],
    index: LentIndex<'_>,
    catalogue: LentCatalogue<'_>,
    ordinals: &[u64],
    counts: &[u64],
    reads: LentReads<'_>,
    state: AuditState,
) -> FragmentsAudit
    ensures { AuditsList audit_seed audit_offset (catalogue_in catalogue.entry) (lent_index true index.entry.keys.now index.entry.ranks.now index.entry.positions.now) (lent_held state placements.old singles.old multi.old)
        (lent_fragments ordinals.now counts.now (reads_in reads.entry))
        result (left_counters placements.new singles.new multi.new) rows.old entries.old rows.new entries.new }
{
    audit_fragments(
        rows,
        entries,
        placements,
        singles,
        multi,
        index,
        catalogue,
        ordinals,
        counts,
        reads,
        true,
        AUDIT_SEED,
        AUDIT_OFFSET,
        state,
    )
}
