// What one coefficient touches, stated in specs/ and proved in proofs/. This crate has no code.
#![tactic(auto)]
