// A catalogue of targets, lent as bytes with ends: its refusals and the rank of each linear target.
#![tactic(auto)]

pub mod bounds;
pub mod lent;
pub mod ranks;
