// The theorems on reading and writing Tucson files, stated in specs/ and proved in proofs/. This crate has no code.
#![tactic(auto)]
