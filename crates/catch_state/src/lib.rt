// A job: how far it has come, and what its first steps make of it.
#![tactic(auto)]

ghost use Rattle.std.specs.Prelude.{◌≡◌};
ghost use Rattle.catch_state.specs.Jobs.{new_job, begun_job, opened_job};

use audit_model::settings::{AuditState, Settings};
use audit_open::{fresh_state, zero_state};
use catch_advance::Advance;
use catch_opening::Indexed;
use catch_progress::Progress;
use catch_targets::Supply;

// Nothing is read; or settings, and targets so far; or the job is opened.
#[derive(Clone, Copy)]
pub enum JobStage {
    Beginning,
    Supplying,
    Running,
}

// How far a job has come, how many targets it has, how they are indexed, and the state of its audit with its settings.
#[derive(Clone, Copy)]
pub struct Job {
    pub stage: JobStage,
    pub supply: Supply,
    pub indexed: Indexed,
    pub state: AuditState,
}

#[derive(Clone, Copy)]
pub struct Advanced {
    pub job: Job,
    pub advance: Advance,
}

// A job of which nothing is read.
pub fn new_job() -> Job
    ensures { result ≡ new_job }
{
    Job {
        stage: JobStage::Beginning,
        supply: Supply {
            targets: 0,
            names: 0,
            bases: 0,
        },
        indexed: Indexed {
            ranked: 0,
            postings: 0,
        },
        state: zero_state(),
    }
}

// A job behind its first command.
pub fn begun_job(at: usize, job: Job, begun: Result<Settings, Advance>) -> Advanced
    ensures { result ≡ begun_job at job begun }
{
    match begun {
        Err(advance) => Advanced { job, advance },
        Ok(settings) => Advanced {
            job: Job {
                stage: JobStage::Supplying,
                state: fresh_state(settings),
                ..job
            },
            advance: Advance {
                at,
                progress: Progress::Went(12),
            },
        },
    }
}

// A job behind its opening. The code that it is run at is read again by the next step.
pub fn opened_job(at: usize, job: Job, opened: Result<Indexed, Advance>) -> Advanced
    ensures { result ≡ opened_job at job opened }
{
    match opened {
        Err(advance) => Advanced { job, advance },
        Ok(indexed) => Advanced {
            job: Job {
                stage: JobStage::Running,
                indexed,
                ..job
            },
            advance: Advance {
                at,
                progress: Progress::Went(0),
            },
        },
    }
}
