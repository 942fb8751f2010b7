// The theorems on the values of the curve call, stated in specs/ and proved in proofs/. This crate has no code.
#![tactic(auto)]
