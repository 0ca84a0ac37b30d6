// The settings and the state of an audit.
use audit_ledger::Ledger;

// The length of a seed.
pub const AUDIT_SEED: usize = 15;

// The quality byte that stands for 0.
pub const AUDIT_OFFSET: u8 = 33;

// The layout of all fragments of a run.
#[derive(Clone, Copy)]
pub enum AuditInputMode {
    SingleEnd,
    PairedEnd,
}

#[derive(Clone, Copy)]
pub enum MateRole {
    S,
    R1,
    R2,
}

#[derive(Clone, Copy)]
pub struct Settings {
    pub mode: AuditInputMode,
    pub remap: bool,
    pub floor: u8,
    pub limit: u64,
}

#[derive(Clone, Copy)]
pub struct AuditState {
    pub settings: Settings,
    // The ordinal of the last accepted fragment.
    pub last: Option<u64>,
    pub ledger: Ledger,
}
