// What an audit keeps of the reads that it booked.

// The largest count.
#![tactic(auto)]

pub const MAX_COUNTER: u64 = 18446744073709551615;

// Counters as they are lent: three for each target.
#[derive(Clone, Copy)]
pub struct LentCounters<'a> {
    pub placements: &'a [u64],
    pub singles: &'a [u64],
    pub multi: &'a [u64],
}

// Counts by role and state (six states of S, then of R1, then of R2), reads by role, three totals, and whether a read was indeterminate.
#[derive(Clone, Copy)]
pub struct Ledger {
    pub table: [u64; 18],
    pub reads: [u64; 3],
    pub placements: u64,
    pub singles: u64,
    pub multi: u64,
    pub indeterminate: bool,
}
