// The units of a Tucson file: the last field of a series that has each, and the numbers by which a caller says one.

// The closing of a series in hundredths of a millimetre: `hundredths` of spec_tucson.
pub const HUNDREDTHS: i32 = 999;

// The largest width of such a series.
pub const HUNDREDTHS_LIMIT: i32 = 9999;

// The closing of a series in thousandths: `thousandths` of spec_tucson.
pub const THOUSANDTHS: i32 = -9999;

// A closing that does not tell the unit: `unknown_unit` of spec_tucson.
pub const UNKNOWN_UNIT: i32 = -999;

// What a caller says of the unit (§ 16): nothing, hundredths or thousandths.
pub const UNIT_NOT_SAID: u32 = 0;

pub const HUNDREDTHS_SAID: u32 = 100;

pub const THOUSANDTHS_SAID: u32 = 1000;
