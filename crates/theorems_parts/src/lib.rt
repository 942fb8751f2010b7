// The values of a beam part by part and over its discontinuities, stated in specs/ and proved in proofs/. This crate has no code.
#![tactic(auto)]
