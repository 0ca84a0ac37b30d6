// A fragment in a catalogue that was tested: audited, and its lines written.
#![tactic(auto)]

ghost use Rattle.std.specs.Prelude.{length};
ghost use Rattle.identifiers.specs.Lent.{lent_cut};
ghost use Rattle.index_model.specs.Index.{sequences_in};
ghost use Rattle.audit_ledger.specs.Booking.{counters_of, left_counters};
ghost use Rattle.audit_model.specs.Calls.{lent_held};
ghost use Rattle.catch_fragment.specs.Told.{TellLent, TellsFragment};

use audit_model::calls::FragmentAudit;
use audit_model::settings::{AUDIT_OFFSET, AUDIT_SEED, AuditState};
use audit_observe_reads::share_of;
use audit_tested::audit_tested;
use catch_fragment_lines::put_answer;
use catch_fragments::FragmentHead;
use index_columns::LentIndex;
use index_model::ranked::RankedTargets;

// Where the output ends, and the answer with the state.
#[derive(Clone, Copy)]
pub struct ToldFragment {
    pub end: usize,
    pub audit: FragmentAudit,
}

// Audits a fragment whose reads stand in bytes, and writes its lines.
pub fn tell_fragment(
    out: &mut [u8],
    entries: &mut [u64],
    placements: &mut [u64],
    singles: &mut [u64],
    multi: &mut [u64],
    index: LentIndex<'_>,
    identifiers: &[u8],
    identifier_ends: &[usize],
    targets: RankedTargets<'_, '_>,
    at: usize,
    bytes: &[u8],
    head: FragmentHead,
    state: AuditState,
) -> ToldFragment
    requires { TellLent targets.bases.now targets.ends.now targets.ranked.now index.keys.now index.ranks.now index.positions.now identifiers.now identifier_ends.now bytes.now head state.settings
        (counters_of placements.old singles.old multi.old) entries.old out.old at }
    ensures { TellsFragment (sequences_in targets.entry) targets.entry.ranked.now (lent_cut identifiers.now identifier_ends.now) (lent_held state placements.old singles.old multi.old) bytes.now head result
        (left_counters placements.new singles.new multi.new) entries.old entries.new out.old at out.new }
{
    let first = head.first;
    let second = head.second;
    // where the bases and the qualities of each read begin and end
    let a = first.from;
    let b = first.middle;
    let c = first.end;
    let d = second.from;
    let e = second.middle;
    let f = second.end;
    let ordinal = head.ordinal;
    let first_role = first.role;
    let second_role = second.role;
    let settings = state.settings;
    let mode = settings.mode;
    let width = 4 * share_of(mode, entries.len() / 4);
    let audit = audit_tested(
        entries,
        placements,
        singles,
        multi,
        index,
        targets,
        &bytes[a..b],
        &bytes[b..c],
        &bytes[d..e],
        &bytes[e..f],
        first_role,
        first.present,
        second_role,
        second.present,
        ordinal,
        head.count,
        true,
        AUDIT_SEED,
        AUDIT_OFFSET,
        state,
    );
    let end = put_answer(
        out,
        at,
        identifiers,
        identifier_ends,
        entries,
        width,
        ordinal,
        first_role,
        second_role,
        audit.answer,
    );
    ToldFragment { end, audit }
}
