// What the table looks like at every stage of the build, as laws. This crate has no code.
#![tactic(auto)]
