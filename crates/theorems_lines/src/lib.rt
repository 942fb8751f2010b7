// Equal coefficients, straight lines, and coefficients that are ordinates, stated in specs/ and proved in proofs/. This crate has no code.
#![tactic(auto)]
