// The calls of the library for programs in C or Rust: numbers and slices only, and no premise. A slice passes as a pointer
// and a length. Each call returns the number of its refusal, 0 for none, and writes its answer as numbers at the front of
// `answer`; where that is too short the call returns 26 and writes nothing at all.
#![tactic(auto)]

pub mod build;
pub mod check_index;
pub mod map;
pub mod map_reads;
pub mod plan;
