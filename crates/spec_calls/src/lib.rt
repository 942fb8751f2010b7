// The calls for indices, first reach, pieces and coefficients as definitions, in specs/. This crate has no code.
#![tactic(auto)]
