// The theorems on the weights, stated in specs/ and proved in proofs/. This crate has no code.
#![tactic(auto)]
