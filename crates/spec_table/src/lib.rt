// The table of indices as definitions, in specs/. This crate has no code.
#![tactic(auto)]
