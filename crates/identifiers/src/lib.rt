// Sequences by their place; identifiers compared.
#![tactic(auto)]

pub mod compare;
pub mod sequences;
