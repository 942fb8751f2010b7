// Breakpoints and positions moved and scaled together, stated in specs/ and proved in proofs/. This crate has no code.
#![tactic(auto)]
