// The join conditions as equal one-sided derivatives of polynomials, stated in specs/ and proved in proofs/. This crate has no code.
#![tactic(auto)]
