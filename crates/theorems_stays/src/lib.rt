// The strict reader accepts a cleaned file, and what is strict stays as it is, in specs/ and proofs/. This crate has no code.
#![tactic(auto)]
