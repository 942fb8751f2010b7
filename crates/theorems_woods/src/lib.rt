// Equal pairs of coefficients in the program `rings`, in specs/ and proofs/. This crate has no code.
#![tactic(auto)]
