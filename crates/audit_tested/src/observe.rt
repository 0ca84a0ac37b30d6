// A fragment observed. State and counters are only read.
ghost use Rattle.index_model.specs.Index.{sequences_in};
ghost use Rattle.audit_ledger.specs.Booking.{counters_of};
ghost use Rattle.audit_model.specs.Calls.{lent_held, lent_mate, fragment_of};
ghost use Rattle.audit_observe_read.specs.Observed.{way_if};
ghost use Rattle.audit_tested.specs.Tested.{Tested, TestedObserved};

use audit_ledger::LentCounters;
use audit_model::calls::FragmentRows;
use audit_model::settings::{AuditState, MateRole};
use audit_observe_fragment::observe_ranked;
use audit_read_checks::check_reads;
use audit_roles::check_order;
use index_columns::LentIndex;
use index_model::ranked::RankedTargets;
use promises::refusal::Refusal;

// Observes a fragment: refused, or the rows of its reads, and their groups in the entries.
pub fn observe_tested(
    entries: &mut [u64],
    counters: LentCounters<'_>,
    index: LentIndex<'_>,
    targets: RankedTargets<'_, '_>,
    first: &[u8],
    first_qualities: &[u8],
    second: &[u8],
    second_qualities: &[u8],
    first_role: MateRole,
    first_present: bool,
    second_role: MateRole,
    second_present: bool,
    ordinal: u64,
    count: usize,
    indexed: bool,
    q: usize,
    offset: u8,
    state: AuditState,
) -> Result<FragmentRows, Refusal>
    requires { Tested indexed q targets.bases.now targets.ends.now targets.ranked.now index.keys.now index.ranks.now index.positions.now state.settings
        (counters_of counters.placements.now counters.singles.now counters.multi.now) }
    ensures { TestedObserved offset (sequences_in targets.entry) (way_if indexed q) targets.entry.ranked.now (lent_held state counters.entry.placements.now counters.entry.singles.now counters.entry.multi.now)
        (fragment_of ordinal count (lent_mate first_role first.now first_present first_qualities.now) (lent_mate second_role second.now second_present second_qualities.now))
        result entries.old entries.new }
{
    let settings = state.settings;
    let mode = settings.mode;
    let last = state.last;
    let ledger = state.ledger;
    check_order(last, ordinal, mode, count, first_role, second_role)?;
    let searched = check_reads(
        first,
        first_qualities,
        first_present,
        second,
        second_qualities,
        second_present,
        settings,
        offset,
    )?;
    // with remap off no read is searched, and the index was not tested
    let searchable = indexed && settings.remap;
    observe_ranked(
        entries,
        targets,
        index,
        counters,
        searchable,
        q,
        first,
        first_role,
        second,
        second_role,
        searched,
        settings,
        ledger,
    )
}
