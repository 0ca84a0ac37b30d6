// Runs calls of `map` that are written as bytes, and writes each answer and what it leaves in the entries.
#![tactic(auto)]

pub mod answered;
pub mod case;
mod lent;
pub mod records;
