// Ring indices beside those of the exact curve, stated in specs/ and proved in proofs/. This crate has no code.
#![tactic(auto)]
