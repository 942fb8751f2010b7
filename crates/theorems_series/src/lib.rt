// What the program `rings` gives for a series, in specs/ and proofs/. This crate has no code.
#![tactic(auto)]
