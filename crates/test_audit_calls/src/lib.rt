// Runs calls of both audits that are written as bytes, and writes what each answers and leaves.
#![tactic(auto)]

pub mod case;
mod commands;
mod finish;
mod fragment;
mod lent;
mod open;
mod sheet;
