// What is proved of ring indices: the statements in specs/, the proofs in proofs/. This crate has no code.
#![tactic(auto)]
