// Which numbers the reach and piece calls can give, with their places, stated in specs/ and proved in proofs/. This crate has no code.
#![tactic(auto)]
