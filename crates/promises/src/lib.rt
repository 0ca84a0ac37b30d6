// The words that every promise is said in: refusals by number, and outcomes.
#![tactic(auto)]

pub mod refusal;
