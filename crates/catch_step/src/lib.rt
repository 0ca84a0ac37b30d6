// A job: one command of its stream after the other.
#![tactic(auto)]

ghost use Rattle.std.specs.Prelude.{◌≡◌, ◌+◌, ◌*◌, ◌≤◌, length};
ghost use Rattle.catch_model.specs.Job.{stream_entries};
ghost use Rattle.catch_advance.specs.Advancing.{step_room};
ghost use Rattle.catch_state.specs.Jobs.{buffers_of, lent_buffers, left_buffers, JobKept, JobAdvances};

use audit_ledger::LentCounters;
use audit_model::settings::AuditState;
use catalogue::lent::LentCatalogue;
use catch_advance::wait_or_refuse;
use catch_run::run;
use catch_state::{Advanced, Job, JobStage, begun_job, opened_job};
use catch_supply::{begin, open, supply};
use index_columns::LentIndex;

// One step, with the bytes that are there; `ended` where the stream ends with them.
pub fn advance(
    out: &mut [u8],
    identifiers: &mut [u8],
    identifier_ends: &mut [usize],
    bases: &mut [u8],
    base_ends: &mut [usize],
    marks: &mut [u8],
    ranked: &mut [usize],
    keys: &mut [u64],
    ranks: &mut [u64],
    positions: &mut [u64],
    placements: &mut [u64],
    singles: &mut [u64],
    multi: &mut [u64],
    entries: &mut [u64],
    at: usize,
    bytes: &[u8],
    ended: bool,
    job: Job,
) -> Advanced
    requires { JobKept job (buffers_of identifiers.old identifier_ends.old bases.old base_ends.old marks.old ranked.old keys.old ranks.old positions.old
        placements.old singles.old multi.old) × (length entries.old ≡ 4 * stream_entries) × (at + step_room ≤ length out.old) }
    ensures { JobAdvances ended job (lent_buffers identifiers.old identifier_ends.old bases.old base_ends.old marks.old ranked.old keys.old ranks.old positions.old placements.old singles.old multi.old) bytes.now out.old at out.new result
        (left_buffers identifiers.new identifier_ends.new bases.new base_ends.new marks.new ranked.new keys.new ranks.new positions.new placements.new singles.new multi.new) }
{
    if bytes.len() == 0 {
        return Advanced {
            job,
            advance: wait_or_refuse(out, at, ended),
        };
    }
    let code = bytes[0];
    let rest = &bytes[1..];
    let stage = job.stage;
    let held = job.supply;
    let indexed = job.indexed;
    let state = job.state;
    let settings = state.settings;
    let targets = held.targets;
    let names = held.names;
    let count = held.bases;
    match stage {
        JobStage::Beginning => {
            let begun = begin(out, at, code, rest, ended);
            begun_job(at, job, begun)
        }
        JobStage::Supplying => {
            if code == 2 {
                let supplied = supply(
                    out,
                    identifiers,
                    identifier_ends,
                    bases,
                    base_ends,
                    marks,
                    at,
                    rest,
                    ended,
                    held,
                );
                let supply = supplied.supply;
                let advance = supplied.advance;
                return Advanced {
                    job: Job {
                        stage,
                        supply,
                        indexed,
                        state,
                    },
                    advance,
                };
            }
            let opened = open(
                out,
                ranked,
                keys,
                ranks,
                positions,
                LentCounters {
                    placements: &placements[..targets],
                    singles: &singles[..targets],
                    multi: &multi[..targets],
                },
                LentCatalogue {
                    identifiers: &identifiers[..names],
                    identifier_ends: &identifier_ends[..targets],
                    bases: &bases[..count],
                    base_ends: &base_ends[..targets],
                    marks: &marks[..targets],
                },
                at,
                code,
                settings,
            );
            opened_job(at, job, opened)
        }
        JobStage::Running => {
            let n = indexed.postings;
            let k = indexed.ranked;
            let step = run(
                out,
                entries,
                &mut placements[..targets],
                &mut singles[..targets],
                &mut multi[..targets],
                LentIndex {
                    keys: &keys[..n],
                    ranks: &ranks[..n],
                    positions: &positions[..n],
                },
                LentCatalogue {
                    identifiers: &identifiers[..names],
                    identifier_ends: &identifier_ends[..targets],
                    bases: &bases[..count],
                    base_ends: &base_ends[..targets],
                    marks: &marks[..targets],
                },
                &ranked[..k],
                at,
                code,
                rest,
                ended,
                state,
            );
            let state = step.state;
            let advance = step.advance;
            Advanced {
                job: Job {
                    stage,
                    supply: held,
                    indexed,
                    state,
                },
                advance,
            }
        }
    }
}
