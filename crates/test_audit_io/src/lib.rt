// What calls of an audit are given and leave: settings, states and fragments read from bytes, answers written as lines of
// numbers, and what one command leaves to the next.
#![tactic(auto)]

pub mod answered;
pub mod desk;
pub mod numbers;
pub mod reads;
