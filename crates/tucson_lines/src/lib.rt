// One line of a Tucson text: its columns and end, its name, the numbers of its year and fields, and whether the next line has
// the same name.
#![tactic(auto)]

pub mod units;

ghost use Rattle.std.specs.Prelude.{true, ◌&&◌, ◌||◌, ◌≡◌, ◌+◌, ◌≤◌, length, drop};
ghost use Rattle.std.proofs.Math.Seq.{slice};
ghost use Rattle.base_text.specs.Bytes.{Range};
ghost use Rattle.base_text.specs.Machine;
ghost use Rattle.spec_tucson.specs.Columns.{in_columns};
ghost use Rattle.spec_tucson.specs.Line.{name_columns, lines_of, all_printable, all_blank, is_name, field_numerals, year_in_decade};
ghost use Rattle.spec_tucson.specs.Line.{is_width, thousandths, line_in_columns, good_line};
ghost use Rattle.spec_tucson.specs.Line;
ghost use Rattle.spec_tucson.specs.TextReading.{goes_on};
ghost use Rattle.tucson_lines.specs.Machine.{widths_told, numerals_told, line_told, LineEnd, FieldsWithin, ColumnsOf, NamedLine};

use base_outcome::limits;

// The years of a decade, as a remainder of years takes them.
const DECADE_YEARS: u32 = limits::DECADE as u32;

// A good line: its year, how many fields it has, whether all fields but the last are at most 9,999, and the last field.
#[derive(Clone, Copy)]
pub struct LineNumbers {
    pub year: i32,
    pub count: usize,
    pub small: bool,
    pub last: i32,
}

pub fn both(a: bool, b: bool) -> bool
    ensures { result ≡ (a && b) }
{
    if a {
        return b;
    }
    false
}

pub fn either(a: bool, b: bool) -> bool
    ensures { result ≡ (a || b) }
{
    if a {
        return true;
    }
    b
}

// Whether two signed numbers are the same.
pub fn same(a: i32, b: i32) -> bool
    ensures { result ≡ Line.same a b }
{
    both(a <= b, b <= a)
}

// The number that stands right-aligned in some columns.
pub fn numeral(text: &[u8], from: usize, to: usize) -> Option<i32>
    requires { Range text.now from to }
    ensures { result ≡ Machine.field (in_columns (slice from to text.now)) }
{
    for i in from..to {
        if text[i] != b' ' {
            return base_text::numeral::numeral(text, i, to);
        }
    }
    None
}

fn all_printable(text: &[u8], from: usize, to: usize) -> bool
    requires { Range text.now from to }
    ensures { result ≡ all_printable (slice from to text.now) }
{
    text[from..to].iter().all(|x| *x >= b' ' && *x <= b'~')
}

fn all_blank(text: &[u8], from: usize, to: usize) -> bool
    requires { Range text.now from to }
    ensures { result ≡ all_blank (slice from to text.now) }
{
    text[from..to].iter().all(|x| *x == b' ')
}

// Whether the eight bytes from the index on are a series name.
pub fn is_name(text: &[u8], from: usize) -> bool
    requires { from + name_columns ≤ length text.now }
    ensures { result ≡ is_name (slice from (from + name_columns) text.now) }
{
    if !all_printable(text, from, from + limits::NAME_COLUMNS) {
        return false;
    }
    !all_blank(text, from, from + limits::NAME_COLUMNS)
}

pub fn year_in_decade(year: i32) -> usize
    ensures { result ≡ year_in_decade year }
{
    if year < 0 {
        return limits::DECADE - 1 - ((-1 - year) as u32 % DECADE_YEARS) as usize;
    }
    (year as u32 % DECADE_YEARS) as usize
}

pub fn is_width(field: i32) -> bool
    ensures { result ≡ is_width field }
{
    both(0 <= field, field <= limits::WIDTH_LIMIT)
}

// Whether a series' last field may be this one.
fn ends_series(field: i32) -> bool
    ensures { result ≡ (is_width field || Line.same field thousandths) }
{
    is_width(field) || same(field, units::THOUSANDTHS)
}

// Whether the first n fields from the index on, if they are widths, are all at most 9,999.
fn widths(text: &[u8], from: usize, to: usize, n: usize) -> Option<bool>
    requires { FieldsWithin text.now from to n }
    ensures { result ≡ widths_told true (field_numerals n (slice from to text.now)) }
{
    let mut small = true;
    for k in 0..n {
        let at = from + k * limits::FIELD_COLUMNS;
        let z = numeral(text, at, at + limits::FIELD_COLUMNS)?;
        if !is_width(z) {
            return None;
        }
        small = both(small, z <= units::HUNDREDTHS_LIMIT);
    }
    Some(small)
}

// The year and the n fields of the line from the one index up to the other, the decade's end and the last field tested too.
fn numerals(text: &[u8], from: usize, end: usize, n: usize) -> Option<LineNumbers>
    requires { ColumnsOf text.now from end n }
    ensures { result ≡ numerals_told (slice from end text.now) n }
{
    let year = numeral(
        text,
        from + limits::NAME_COLUMNS,
        from + limits::HEAD_COLUMNS,
    )?;
    let small = widths(text, from + limits::HEAD_COLUMNS, end, n - 1)?;
    let last = numeral(text, end - limits::FIELD_COLUMNS, end)?;
    if year_in_decade(year) + n > limits::DECADE {
        return None;
    }
    if !ends_series(last) {
        return None;
    }
    Some(LineNumbers {
        year,
        count: n,
        small,
        last,
    })
}

// The line from the one index up to its byte 10, or to the end of the text, tested as if it were its series' last.
pub fn line(text: &[u8], from: usize, end: usize) -> Option<LineNumbers>
    requires { LineEnd text.now from end }
    ensures { result ≡ line_told (good_line true (slice from (end + 1) text.now)) }
{
    if end == text.len() {
        return None;
    }
    let size = end - from;
    if size < limits::HEAD_COLUMNS + limits::FIELD_COLUMNS {
        return None;
    }
    let n = (size - limits::HEAD_COLUMNS) / limits::FIELD_COLUMNS;
    if size != limits::HEAD_COLUMNS + n * limits::FIELD_COLUMNS {
        return None;
    }
    if n > limits::DECADE {
        return None;
    }
    if !is_name(text, from) {
        return None;
    }
    numerals(text, from, end, n)
}

// Whether the line from the one index on, whose name is good, goes on in the one that begins at the other.
pub fn goes_on(text: &[u8], from: usize, end: usize) -> bool
    requires { NamedLine text.now from end }
    ensures { result ≡ goes_on (slice from (end + 1) text.now) (lines_of (drop (end + 1) text.now)) }
{
    base_text::fields::begins(
        text,
        end + 1,
        text.len(),
        &text[from..from + limits::NAME_COLUMNS],
    )
}
