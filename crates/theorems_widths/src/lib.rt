// Every width that the strict reader finds stands in a field of a line, in specs/ and proofs/. This crate has no code.
#![tactic(auto)]
