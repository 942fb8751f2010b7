// What is changed in a laboratory's file, and what is cut off, is told, in specs/ and proofs/. This crate has no code.
#![tactic(auto)]
