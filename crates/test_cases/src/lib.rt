// What the programs of the gate share: cases and their numbers read from bytes, words and numbers written.
#![tactic(auto)]

pub mod reading;
pub mod targets;
pub mod writing;
