// What becomes of the values where coefficients are raised or moved, stated in specs/ and proved in proofs/. This crate has no code.
#![tactic(auto)]
