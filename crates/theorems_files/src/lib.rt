// Laboratories' files with their answers, computed in proofs/. This crate has no code.
#![tactic(auto)]
