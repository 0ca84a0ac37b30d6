// The types of the audit; what its calls answer is said in specs/.
#![tactic(auto)]

pub mod calls;
pub mod settings;
pub mod sheet;
