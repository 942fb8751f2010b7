// Which spaces are always answered, and how many weights an ordinate has: stated in specs/ and proved in proofs/. This crate has no code.
#![tactic(auto)]
