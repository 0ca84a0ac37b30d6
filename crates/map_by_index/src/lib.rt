// The search by index: the candidates of both strands, the smaller one compared first, and the work counts.
#![tactic(auto)]

pub mod by_index;
pub mod work;
