// `catch` on paper; what it writes is said in specs/.
#![tactic(auto)]
