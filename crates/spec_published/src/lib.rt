// The published construction as definitions, in specs/. This crate has no code.
#![tactic(auto)]
