// Postings in parts by key: the seeds of a sequence counted by part, and written at the next places of their parts.
#![tactic(auto)]

pub mod counting;
pub mod part;
pub mod placing;
