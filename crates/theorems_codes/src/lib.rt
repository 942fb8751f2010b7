// Which numbers each call can give, with their places, stated in specs/ and proved in proofs/. This crate has no code.
#![tactic(auto)]
