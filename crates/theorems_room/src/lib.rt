// The buffers that the headers call enough are enough, in specs/ and proofs/. This crate has no code.
#![tactic(auto)]
