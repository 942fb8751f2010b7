// Exact ordinates of lists that do not rise, stated in specs/ and proved in proofs/. This crate has no code.
#![tactic(auto)]
