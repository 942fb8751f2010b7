// Parts of a text: finding a byte, comparing with a key, and the number that a part stands for.
#![tactic(auto)]

pub mod fields;
pub mod numeral;
