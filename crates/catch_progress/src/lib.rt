// How far a step of a job went.

// A command was done that has so many bytes; or the run has ended; or more bytes are needed.
#![tactic(auto)]

#[derive(Clone, Copy)]
pub enum Progress {
    Went(usize),
    Ended,
    More,
}
