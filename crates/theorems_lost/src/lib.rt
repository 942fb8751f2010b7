// Nothing of a laboratory's file is lost in silence, in specs/ and proofs/. This crate has no code.
#![tactic(auto)]
