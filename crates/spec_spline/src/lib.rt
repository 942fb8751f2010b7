// The specification as definitions, in specs/. This crate has no code.
#![tactic(auto)]
