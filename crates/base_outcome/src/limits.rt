// The limits and scales that crates of several floors share: the name of each is that of its definition in specs/, in capitals.

// Parts of a ring in a position, and of a thousandth of a millimetre in a value: `fineness` of spec_spline.
pub const FINENESS: i32 = 256;

// The same among numbers of 64 bits.
pub const WIDE_FINENESS: i64 = FINENESS as i64;

// The most positions of a curve call, rings of an index call and entries of a list of a sheet: `position_limit` of spec_spline.
pub const POSITION_LIMIT: usize = 4096;

// The largest width, in thousandths of a millimetre (§ 9, § 14).
pub const WIDTH_LIMIT: i32 = 99999;

// The columns of a name in a line of a Tucson file (§ 14).
pub const NAME_COLUMNS: usize = 8;

// Those of a year.
pub const YEAR_COLUMNS: usize = 4;

// Those of a field.
pub const FIELD_COLUMNS: usize = 6;

// The years of a decade, and so the most fields of a line.
pub const DECADE: usize = 10;

// The columns before the first field.
pub const HEAD_COLUMNS: usize = NAME_COLUMNS + YEAR_COLUMNS;

// The columns of a line with all ten fields.
pub const LINE_COLUMNS: usize = HEAD_COLUMNS + DECADE * FIELD_COLUMNS;

// The most bytes of a Tucson text and of an input of `rings`: `text_limit` of spec_tucson.
pub const TEXT_LIMIT: usize = 1048576;

// The most bytes of a sheet: `sheet_limit` of spec_sheet.
pub const SHEET_LIMIT: usize = 65536;
