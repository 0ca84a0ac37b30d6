// What a sheet shows, and whether the books agree with themselves.
#![tactic(auto)]

pub mod balance;
pub mod showing;
