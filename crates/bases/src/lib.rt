// Bases as bytes: their codes and complements, a read as it lies on a strand, and which reads are eligible.
#![tactic(auto)]

pub mod base;
pub mod eligibility;
pub mod strand;
