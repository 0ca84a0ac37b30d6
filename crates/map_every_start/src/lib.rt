// Placement entries, one place compared, and the search at every start.
#![tactic(auto)]

pub mod entries;
pub mod every_start;
pub mod visit;
