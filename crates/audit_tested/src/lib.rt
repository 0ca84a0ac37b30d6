// A fragment in a catalogue that was tested: checked, observed and booked.
#![tactic(auto)]

ghost use Rattle.index_model.specs.Index.{sequences_in};
ghost use Rattle.audit_ledger.specs.Booking.{counters_of, left_counters};
ghost use Rattle.audit_model.specs.Calls.{lent_held, lent_mate, fragment_of};
ghost use Rattle.audit_observe_read.specs.Observed.{way_if};
ghost use Rattle.audit_tested.specs.Tested.{Tested, TestedAudited};

use audit_book_answer::book_answer;
use audit_ledger::LentCounters;
use audit_model::calls::FragmentAudit;
use audit_model::settings::{AuditState, MateRole};
use audit_observe_reads::share_of;
use index_columns::LentIndex;
use index_model::ranked::RankedTargets;
use observe::observe_tested;

pub mod observe;

// Audits a fragment: refused, or observed and booked.
pub fn audit_tested(
    entries: &mut [u64],
    placements: &mut [u64],
    singles: &mut [u64],
    multi: &mut [u64],
    index: LentIndex<'_>,
    targets: RankedTargets<'_, '_>,
    first: &[u8],
    first_qualities: &[u8],
    second: &[u8],
    second_qualities: &[u8],
    first_role: MateRole,
    first_present: bool,
    second_role: MateRole,
    second_present: bool,
    ordinal: u64,
    count: usize,
    indexed: bool,
    q: usize,
    offset: u8,
    state: AuditState,
) -> FragmentAudit
    requires { Tested indexed q targets.bases.now targets.ends.now targets.ranked.now index.keys.now index.ranks.now index.positions.now state.settings
        (counters_of placements.old singles.old multi.old) }
    ensures { TestedAudited offset (sequences_in targets.entry) (way_if indexed q) targets.entry.ranked.now (lent_held state placements.old singles.old multi.old)
        (fragment_of ordinal count (lent_mate first_role first.now first_present first_qualities.now) (lent_mate second_role second.now second_present second_qualities.now))
        result (left_counters placements.new singles.new multi.new) entries.old entries.new }
{
    let settings = state.settings;
    let mode = settings.mode;
    let width = 4 * share_of(mode, entries.len() / 4);
    let answer = observe_tested(
        entries,
        LentCounters {
            placements,
            singles,
            multi,
        },
        index,
        targets,
        first,
        first_qualities,
        second,
        second_qualities,
        first_role,
        first_present,
        second_role,
        second_present,
        ordinal,
        count,
        indexed,
        q,
        offset,
        state,
    );
    match answer {
        Err(_) => FragmentAudit { answer, state },
        Ok(_) => {
            let booked = book_answer(
                placements,
                singles,
                multi,
                entries,
                state,
                answer,
                ordinal,
                first_role,
                second_role,
                width,
            );
            FragmentAudit {
                answer,
                state: booked,
            }
        }
    }
}
