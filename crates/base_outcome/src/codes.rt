// The numbers of all refusals by name, in the words of include/walzhik.h; specs/Codes has the same for definitions.

// A lent buffer is too short (§ 3).
pub const SHORT_BUFFER: u8 = 1;

// The lists' lengths don't fit, or there are more than 4,096 positions or widths (§ 3).
pub const LENGTHS: u8 = 2;

// A breakpoint out of range or not above the one before, or a part whose span is over 2,000 (§ 3).
pub const BREAKPOINT: u8 = 3;

// A degree out of range (§ 3).
pub const DEGREE: u8 = 4;

// An order out of range, or not less than both neighbouring degrees (§ 3).
pub const ORDER: u8 = 5;

// The count of coefficients is not 2n, or a coefficient out of range (§ 3).
pub const COEFFICIENT: u8 = 6;

// A position outside the span (§ 3).
pub const POSITION: u8 = 7;

// A counted fraction is too large (§ 5).
pub const TOO_LARGE: u8 = 8;

// The jumps lack the needed shape (§ 5).
pub const JUMPS: u8 = 9;

// The sheet's text is malformed (§ 13).
pub const SHEET_LINE: u8 = 10;

// A line or a series that the Tucson form does not allow (§ 14).
pub const TUCSON_LINE: u8 = 11;

// A later line of a series whose year is not the next or does not end in 0 (§ 14).
pub const TUCSON_YEAR: u8 = 12;

// A series' last line without a closing field, or closed by 999 after a width over 9,999 (§ 14).
pub const TUCSON_CLOSING: u8 = 13;

// A width below 0 or over 99,999, or a value of zero or less under a present ring (§ 9).
pub const RING: u8 = 14;

// A part with more than 12 segments (§ 3).
pub const LONG_PART: u8 = 15;

// No position reaches the width (§ 10).
pub const NEVER_REACHED: u8 = 16;

// There is no such segment, or its degree is 4 or 5 (§ 11).
pub const NOT_DRAWN: u8 = 17;

// The count of ordinates is not that of the columns, or an ordinate out of range (§ 12).
pub const ORDINATE: u8 = 18;

// Local ordinates miss a condition (§ 12).
pub const NO_COEFFICIENTS: u8 = 19;

// A fraction of the undoing is too large (§ 12).
pub const TOO_LARGE_TO_UNDO: u8 = 20;

// A byte that no laboratory's file may have, or a file that is too long (§ 16).
pub const FILE_TEXT: u8 = 21;

// A line with bytes over 127 that is no strict line in exactly one way, or a name whose bytes changed (§ 16).
pub const FILE_BYTES: u8 = 22;

// A year that runs into its name (§ 16).
pub const FILE_NAME: u8 = 23;

// A closing whose unit is not known or is not the one said, or a unit that there is not (§ 16).
pub const FILE_UNIT: u8 = 24;

// 999 before the closing in a series whose closing is 999 (§ 16).
pub const FILE_CLOSING: u8 = 25;

// A header that is too long, or has a line that can be read as a strict line (§ 16).
pub const FILE_HEADER: u8 = 26;
