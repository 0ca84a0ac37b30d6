// The numbers of a posting by its place, and where the postings of a key stand.
#![tactic(auto)]

pub mod approach;
pub mod lookup;
pub mod read;
