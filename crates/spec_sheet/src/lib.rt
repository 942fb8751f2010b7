// The sheet's text and its printout as definitions, in specs/. This crate has no code.
#![tactic(auto)]
