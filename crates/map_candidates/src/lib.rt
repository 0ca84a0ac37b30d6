// What a search by the index goes along.
#![tactic(auto)]

pub mod cursor;
pub mod sides;
