// Whole runs of both audits, held against the rules and against each other. There is no code.
#![tactic(auto)]
