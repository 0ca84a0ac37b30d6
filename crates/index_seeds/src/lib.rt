// Seeds and their keys.
#![tactic(auto)]

pub mod fours;
pub mod keys;
