// The numbers of all notes by name (§ 16); specs/Notes of spec_tucson has the same for definitions.

// A byte order mark was taken off.
pub const MARKED: usize = 1;

// The text ends before byte 26.
pub const CUT: usize = 2;

// Byte 13 before byte 10 was taken off.
pub const RETURNED: usize = 3;

// A tab became blanks.
pub const TABBED: usize = 4;

// Trailing blanks were taken off.
pub const TRAILING: usize = 5;

// A blank line was left out.
pub const BLANK: usize = 6;

// A site name was taken off.
pub const SITE: usize = 7;

// The last line got its byte 10.
pub const UNENDED: usize = 8;

// A line of the header was taken out.
pub const HEADER: usize = 9;

// ? stands for what is not ASCII in the name.
pub const HIGH: usize = 10;

// The unit's closing stands for -999.
pub const RECLOSED: usize = 11;

// A remark: a series' first or last width is 0, or it has none.
pub const ABSENT_END: usize = 12;

// A remark: the last width of a line is 999 in a series of thousandths.
pub const LIKE_CLOSING: usize = 13;

// A remark: the unit of a series is not that of the first.
pub const OTHER_UNIT: usize = 14;
