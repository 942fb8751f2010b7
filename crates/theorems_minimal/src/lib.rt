// Rows of minimal support, stated in specs/ and proved in proofs/. This crate has no code.
#![tactic(auto)]
