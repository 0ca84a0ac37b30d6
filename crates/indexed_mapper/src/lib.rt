// The exact mapper: every placement of a read, base for base, or an honest "indeterminate".
#![tactic(auto)]

pub mod map;
