// The calls of the audit for programs in C or Rust: numbers and slices only, and no premise. A slice passes as a pointer and a
// length, the state as numbers. Each call returns the number of its refusal, 0 for none; 26 comes first, and then nothing is written.
#![tactic(auto)]

pub mod apply_to_unitigs;
pub mod finish;
pub mod fragment;
pub mod fragments;
pub mod open;
pub mod plain_finish;
pub mod plain_fragment;
pub mod plain_open;
