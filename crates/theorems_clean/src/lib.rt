// What is read of a laboratory's file is what is shown, in specs/ and proofs/, and laws of strict lines. This crate has no code.
#![tactic(auto)]
