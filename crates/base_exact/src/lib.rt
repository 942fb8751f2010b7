// Exact numbers: mathematics only, in specs/ and proofs/. This crate has no code.
#![tactic(auto)]
