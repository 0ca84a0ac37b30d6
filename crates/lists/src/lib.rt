// The mathematics of lists that every crate above rests on. There is no code: specs/ defines, proofs/ proves.
#![tactic(auto)]
