// The numbers of a strict line: its year, its last field, and what is to be known of the fields before that.
#![tactic(auto)]

ghost use Rattle.std.specs.Prelude.{true, ◌≡◌, ◌+◌, ◌*◌, ◌≤◌, length};
ghost use Rattle.spec_tucson.specs.Line.{head_columns, field_columns};
ghost use Rattle.spec_tucson.specs.StrictLine.{is_strict};
ghost use Rattle.tucson_fields.specs.Machine.{FrontTold, FactsOf};

use base_outcome::limits;
use tucson_lines::units;

// The year, how many fields there are, whether the fields but the last are widths, whether all of them are at most 9,999, whether 999
// is one of them, and the last field.
#[derive(Clone, Copy)]
pub struct Facts {
    pub year: i32,
    pub count: usize,
    pub widths: bool,
    pub small: bool,
    pub nine: bool,
    pub last: i32,
}

// The same of the fields but the last alone.
#[derive(Clone, Copy)]
struct FrontFacts {
    widths: bool,
    small: bool,
    nine: bool,
}

// Looks through the first n fields.
fn fields_before(line: &[u8], n: usize) -> FrontFacts
    requires { head_columns + n * field_columns ≤ length line.now }
    ensures { FrontTold line.now n result }
{
    let mut widths = true;
    let mut small = true;
    let mut nine = false;
    for k in 0..n {
        let at = limits::HEAD_COLUMNS + k * limits::FIELD_COLUMNS;
        let Some(z) = tucson_lines::numeral(line, at, at + limits::FIELD_COLUMNS) else {
            return FrontFacts {
                widths: false,
                small: false,
                nine: false,
            };
        };
        widths = tucson_lines::both(widths, tucson_lines::is_width(z));
        small = tucson_lines::both(small, z <= units::HUNDREDTHS_LIMIT);
        nine = tucson_lines::either(nine, tucson_lines::same(z, units::HUNDREDTHS));
    }
    FrontFacts {
        widths,
        small,
        nine,
    }
}

// What a line that is no strict line has for its numbers: nothing.
fn nothing() -> Facts {
    Facts {
        year: 0,
        count: 0,
        widths: false,
        small: false,
        nine: false,
        last: 0,
    }
}

// The numbers of a strict line.
pub fn numbers(line: &[u8]) -> Facts
    requires { is_strict line.now ≡ true }
    ensures { FactsOf line.now result }
{
    let end = line.len();
    let n = (end - limits::HEAD_COLUMNS) / limits::FIELD_COLUMNS;
    let Some(year) = tucson_lines::numeral(line, limits::NAME_COLUMNS, limits::HEAD_COLUMNS) else {
        return nothing();
    };
    let Some(last) = tucson_lines::numeral(line, end - limits::FIELD_COLUMNS, end) else {
        return nothing();
    };
    let others = fields_before(line, n - 1);
    Facts {
        year,
        count: n,
        widths: others.widths,
        small: others.small,
        nine: others.nine,
        last,
    }
}
