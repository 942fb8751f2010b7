// What of series can be refused before the first byte is written (§ 14): whether the four lists fit each other, the first series that
// can't be written, and whether the text has room.
#![tactic(auto)]

pub mod lists;
pub mod room;
pub mod writable;
