// A step of a job that was opened: a fragment, or the end.
#![tactic(auto)]

ghost use Rattle.std.specs.Prelude.{◌≡◌, ◌∷◌, ◌+◌, ◌≤◌, length};
ghost use Rattle.catalogue.specs.Catalogue.{catalogue_in};
ghost use Rattle.audit_ledger.specs.Booking.{left_counters};
ghost use Rattle.audit_model.specs.Calls.{held_of, lent_held};
ghost use Rattle.catch_advance.specs.Advancing.{step_room};
ghost use Rattle.catch_run.specs.Running.{catalogue_of, progress_of, Runs, Ran};

use audit_finish::finish_tested;
use audit_ledger::LentCounters;
use audit_model::calls::FragmentRows;
use audit_model::settings::AuditState;
use catalogue::lent::LentCatalogue;
use catch_advance::{Advance, refuse, wait, wait_or_refuse};
use catch_commands::Unread;
use catch_finish_lines::put_finish;
use catch_fragment::tell_fragment;
use catch_fragments::read_fragment;
use catch_progress::Progress;
use index_columns::LentIndex;
use index_model::ranked::RankedTargets;
use promises::refusal::Refusal;

// How far the step went, and the state of the audit.
#[derive(Clone, Copy)]
pub struct RunStep {
    pub advance: Advance,
    pub state: AuditState,
}

// A refusal is the last step.
fn progress_of(answer: Result<FragmentRows, Refusal>, n: usize) -> Progress
    ensures { result ≡ progress_of answer n }
{
    match answer {
        Ok(rows) => Progress::Went(n),
        Err(refusal) => Progress::Ended,
    }
}

// A fragment, 03 in front of the bytes. The marks are lent since they belong to the catalogue that is promised of.
fn run_fragment(
    out: &mut [u8],
    entries: &mut [u64],
    placements: &mut [u64],
    singles: &mut [u64],
    multi: &mut [u64],
    index: LentIndex<'_>,
    catalogue: LentCatalogue<'_>,
    ranked: &[usize],
    at: usize,
    bytes: &[u8],
    ended: bool,
    state: AuditState,
) -> RunStep
    requires { Runs (catalogue_of catalogue.identifiers.now catalogue.identifier_ends.now catalogue.bases.now catalogue.base_ends.now catalogue.marks.now) ranked.now index.keys.now index.ranks.now index.positions.now
        (held_of state placements.old singles.old multi.old) entries.old × (at + step_room ≤ length out.old) }
    ensures { Ran ended (catalogue_in catalogue.entry) (lent_held state placements.old singles.old multi.old) (3 ∷ bytes.now) out.old at out.new result
        (left_counters placements.new singles.new multi.new) }
{
    match read_fragment(bytes) {
        Err(Unread::Wrong) => RunStep {
            advance: refuse(out, at, Refusal::JobStream),
            state,
        },
        Err(Unread::More) => RunStep {
            advance: wait_or_refuse(out, at, ended),
            state,
        },
        Ok(head) => {
            let n = 1 + head.end;
            let told = tell_fragment(
                out,
                entries,
                placements,
                singles,
                multi,
                index,
                catalogue.identifiers,
                catalogue.identifier_ends,
                RankedTargets {
                    bases: catalogue.bases,
                    ends: catalogue.base_ends,
                    ranked,
                },
                at,
                bytes,
                head,
                state,
            );
            let audit = told.audit;
            RunStep {
                advance: Advance {
                    at: told.end,
                    progress: progress_of(audit.answer, n),
                },
                state: audit.state,
            }
        }
    }
}

// A fragment or the end, its code in front of the bytes.
pub fn run(
    out: &mut [u8],
    entries: &mut [u64],
    placements: &mut [u64],
    singles: &mut [u64],
    multi: &mut [u64],
    index: LentIndex<'_>,
    catalogue: LentCatalogue<'_>,
    ranked: &[usize],
    at: usize,
    code: u8,
    bytes: &[u8],
    ended: bool,
    state: AuditState,
) -> RunStep
    requires { Runs (catalogue_of catalogue.identifiers.now catalogue.identifier_ends.now catalogue.bases.now catalogue.base_ends.now catalogue.marks.now) ranked.now index.keys.now index.ranks.now index.positions.now
        (held_of state placements.old singles.old multi.old) entries.old × (at + step_room ≤ length out.old) }
    ensures { Ran ended (catalogue_in catalogue.entry) (lent_held state placements.old singles.old multi.old) (code ∷ bytes.now) out.old at out.new result
        (left_counters placements.new singles.new multi.new) }
{
    if code == 3 {
        return run_fragment(
            out, entries, placements, singles, multi, index, catalogue, ranked, at, bytes, ended,
            state,
        );
    }
    if code != 5 {
        return RunStep {
            advance: refuse(out, at, Refusal::JobStream),
            state,
        };
    }
    if 0 < bytes.len() {
        return RunStep {
            advance: refuse(out, at, Refusal::JobStream),
            state,
        };
    }
    if ended {
        let counters = LentCounters {
            placements,
            singles,
            multi,
        };
        let finish = finish_tested(counters, state);
        let end = put_finish(
            out,
            at,
            catalogue.identifiers,
            catalogue.identifier_ends,
            catalogue.marks,
            counters,
            finish.answer,
            finish.sheet,
        );
        return RunStep {
            advance: Advance {
                at: end,
                progress: Progress::Ended,
            },
            state,
        };
    }
    RunStep {
        advance: wait(at),
        state,
    }
}
