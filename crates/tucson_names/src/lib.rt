// The name of a strict line: whether the year runs into it, and whether two lines have the same bytes for it.
#![tactic(auto)]

ghost use Rattle.std.specs.Prelude.{◌&&◌, ◌≡◌, ◌+◌, ◌≤◌, length};
ghost use Rattle.base_text.specs.Numeral.{is_digit};
ghost use Rattle.spec_tucson.specs.Line.{head_columns};
ghost use Rattle.spec_tucson.specs.KeptLines.{same_text};
ghost use Rattle.spec_tucson.specs.CleanSeries.{is_sign, digits_in, year_in_name, digits_behind, ends_in_number, is_shifted, runs_in};
ghost use Rattle.tucson_names.specs.Machine.{blank_inside};

use base_outcome::limits;

// The columns of a line with one field.
const ONE_FIELD: usize = limits::HEAD_COLUMNS + limits::FIELD_COLUMNS;

fn is_sign(c: u8) -> bool
    ensures { result ≡ is_sign c }
{
    tucson_lines::either(c == b'-', c == b'?')
}

fn is_digit(c: u8) -> bool
    ensures { result ≡ is_digit c }
{
    if c < b'0' {
        return false;
    }
    c <= b'9'
}

// Whether all bytes from the one index up to the other are digits.
fn digits_in(line: &[u8], from: usize, n: usize) -> bool
    requires { from + n ≤ length line.now }
    ensures { result ≡ digits_in (from + 1) n line.now }
{
    line[from..from + n].iter().all(|c| is_digit(*c))
}

// Whether a sign stands in the name's last column, or a year of five columns behind a sign or a blank.
fn year_in_name(line: &[u8]) -> bool
    requires { head_columns ≤ length line.now }
    ensures { result ≡ year_in_name line.now }
{
    if is_sign(line[limits::NAME_COLUMNS - 1]) {
        return true;
    }
    if digits_in(
        line,
        limits::NAME_COLUMNS - 1,
        limits::HEAD_COLUMNS - limits::NAME_COLUMNS + 1,
    ) {
        return tucson_lines::either(
            is_sign(line[limits::NAME_COLUMNS - 2]),
            line[limits::NAME_COLUMNS - 2] == b' ',
        );
    }
    false
}

// Whether the first n bytes end with digits behind a blank or a ?.
fn digits_behind(line: &[u8], n: usize) -> bool
    requires { n ≤ length line.now }
    ensures { result ≡ digits_behind n line.now }
{
    for i in (0..n).rev() {
        if !is_digit(line[i]) {
            return tucson_lines::either(line[i] == b' ', line[i] == b'?');
        }
    }
    false
}

// Whether the name ends, in its last column, with digits behind a blank or a ?.
fn ends_in_number(line: &[u8]) -> bool
    requires { head_columns ≤ length line.now }
    ensures { result ≡ ends_in_number line.now }
{
    if is_digit(line[limits::NAME_COLUMNS - 1]) {
        return digits_behind(line, limits::NAME_COLUMNS);
    }
    false
}

// Whether a blank stands in the name with another byte behind it.
fn blank_inside(line: &[u8]) -> bool
    requires { head_columns ≤ length line.now }
    ensures { result ≡ blank_inside line.now }
{
    let mut seen = false;
    for c in &line[..limits::NAME_COLUMNS] {
        if *c == b' ' {
            seen = true;
        } else {
            if seen {
                return true;
            }
        }
    }
    false
}

// Whether the line is shifted: its name begins with a blank, ends in a number, or has a blank inside while there is one field alone.
fn is_shifted(line: &[u8]) -> bool
    requires { head_columns ≤ length line.now }
    ensures { result ≡ is_shifted line.now }
{
    if line[0] == b' ' {
        return true;
    }
    if ends_in_number(line) {
        return true;
    }
    if line.len() == ONE_FIELD {
        return blank_inside(line);
    }
    false
}

// Code 23 of a strict line, which is a series by itself or not.
pub fn runs_in(line: &[u8], alone: bool) -> bool
    requires { head_columns ≤ length line.now }
    ensures { result ≡ runs_in alone line.now }
{
    if year_in_name(line) {
        return true;
    }
    if alone {
        return is_shifted(line);
    }
    false
}

// Whether the two texts are the same bytes.
pub fn same_text(a: &[u8], b: &[u8]) -> bool
    ensures { result ≡ same_text a.now b.now }
{
    a == b
}
