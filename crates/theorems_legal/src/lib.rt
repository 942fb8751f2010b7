// Smoothness in every legal space, stated in specs/ and proved in proofs/. This crate has no code.
#![tactic(auto)]
