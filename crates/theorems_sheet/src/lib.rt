// What is proved of the sheet's printout: the statements in specs/, the proofs in proofs/. This crate has no code.
#![tactic(auto)]
