// The reads of a checked fragment observed in ranked sequences, and refusal 17. State and counters are only read.
#![tactic(auto)]

ghost use Rattle.index_model.specs.Index.{sequences_in};
ghost use Rattle.audit_ledger.specs.Booking.{counters_of, counters_in};
ghost use Rattle.audit_model.specs.Settings.{role_number};
ghost use Rattle.audit_observe_read.specs.Observed.{way_if, as_observed};
ghost use Rattle.audit_observe_fragment.specs.Observe.{RankedLent, RankedObserved};

use audit_book_answer::post_answer;
use audit_ledger::{Ledger, LentCounters};
use audit_model::calls::FragmentRows;
use audit_model::settings::{MateRole, Settings};
use audit_observe_reads::{search_reads, share_of};
use audit_read_checks::SearchedReads;
use index_columns::LentIndex;
use index_model::ranked::RankedTargets;
use map_every_start::entries::clear_entries;
use promises::refusal::Refusal;

// Observes the reads of a checked fragment in ranked sequences: 10 or 17 with every entry zero, or their rows and groups.
pub fn observe_ranked(
    entries: &mut [u64],
    targets: RankedTargets<'_, '_>,
    index: LentIndex<'_>,
    counters: LentCounters<'_>,
    indexed: bool,
    q: usize,
    first: &[u8],
    first_role: MateRole,
    second: &[u8],
    second_role: MateRole,
    searched: SearchedReads,
    settings: Settings,
    ledger: Ledger,
) -> Result<FragmentRows, Refusal>
    requires { RankedLent indexed q targets.bases.now targets.ends.now targets.ranked.now index.keys.now index.ranks.now index.positions.now
        first.now second.now searched settings (counters_of counters.placements.now counters.singles.now counters.multi.now) }
    ensures { RankedObserved settings (sequences_in targets.entry) (way_if indexed q) targets.entry.ranked.now
        (role_number first_role) (role_number second_role) (as_observed searched.first first.now) (as_observed searched.second second.now)
        ledger (counters_in counters.entry) result entries.old entries.new }
{
    let mode = settings.mode;
    let width = 4 * share_of(mode, entries.len() / 4);
    let answer = search_reads(
        entries,
        targets,
        index,
        indexed,
        q,
        first,
        searched.first,
        second,
        searched.second,
        settings,
    );
    let posted = post_answer(
        ledger,
        counters,
        entries,
        answer,
        first_role,
        second_role,
        width,
    );
    if posted.is_none() {
        clear_entries(entries);
        return Err(Refusal::FullCounter);
    }
    answer
}
