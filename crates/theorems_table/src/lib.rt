// The theorem on the table of indices, stated in specs/ and proved in proofs/. This crate has no code.
#![tactic(auto)]
