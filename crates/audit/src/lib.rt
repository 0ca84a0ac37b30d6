// The audit: opening, fragment and finish, by the index and plain. Each call answers for any input.
#![tactic(auto)]

pub mod finish;
pub mod fragment;
pub mod open;
