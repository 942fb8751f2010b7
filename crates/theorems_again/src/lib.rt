// A laboratory's file that is cleaned twice, in specs/ and proofs/. This crate has no code.
#![tactic(auto)]
