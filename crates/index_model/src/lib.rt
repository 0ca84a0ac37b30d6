// The index of ranked sequences: its sequences by rank, and the test of a lent one.
#![tactic(auto)]

pub mod ranked;
pub mod test;
