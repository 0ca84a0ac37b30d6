// What a finished audit shows.
use crate::settings::AuditInputMode;

#[derive(Clone, Copy)]
pub enum Status {
    Complete,
    CandidateLimit,
    RemapDisabled,
    ClosedUnsupported,
}

// Placements, reads with one group, and reads with several, for a target or for the run.
#[derive(Clone, Copy)]
pub struct PlacementTotals {
    pub placements: u64,
    pub singles: u64,
    pub multi: u64,
}

// What is shown of a target or of the run: its totals only where its status is that they are complete.
#[derive(Clone, Copy)]
pub struct Shown {
    pub status: Status,
    pub totals: Option<PlacementTotals>,
}

#[derive(Clone, Copy)]
pub struct Sheet {
    pub mode: AuditInputMode,
    pub remap: bool,
    pub table: [u64; 18],
    pub run: Shown,
}
