// Whether the bytes at the front of an array are a strict line: a name, a year and one to ten fields, each in its columns.
#![tactic(auto)]

ghost use Rattle.std.specs.Prelude.{◌≡◌, length, take, ◌<◌};
ghost use Rattle.std.proofs.Math.Seq.{slice};
ghost use Rattle.base_text.specs.Bytes.{Range};
ghost use Rattle.base_text.specs.Numeral.{all_digits, numeral};
ghost use Rattle.spec_tucson.specs.Columns.{in_columns};
ghost use Rattle.spec_tucson.specs.Line.{field_numerals};
ghost use Rattle.spec_tucson.specs.StrictLine.{is_some, is_strict, any_high};
ghost use Rattle.tucson_lines.specs.Machine.{FieldsWithin};
ghost use Rattle.tucson_columns.specs.Machine.{cells};
ghost use Rattle.tucson_strict.specs.Machine.{NegativeTold};

use base_outcome::limits;

// The most digits of a numeral.
const MOST_DIGITS: usize = 7;

// Whether all bytes of the part are digits.
fn all_digits(text: &[u8], from: usize, to: usize) -> bool
    requires { Range text.now from to }
    ensures { result ≡ all_digits (slice from to text.now) }
{
    text[from..to].iter().all(|x| x.is_ascii_digit())
}

// Whether the part begins with a minus and a digit other than 0, and has no more digits than a number.
fn is_negative(text: &[u8], from: usize, to: usize) -> bool
    requires { Range text.now from to × (from < to) }
    ensures { NegativeTold text.now from to result }
{
    if text[from] != b'-' {
        return false;
    }
    let size = to - from;
    if size < 2 {
        return false;
    }
    if size > MOST_DIGITS {
        return false;
    }
    text[from + 1] > b'0'
}

// Whether the part is a number; most are, and need no value, since their first digit is not 0.
fn is_number(text: &[u8], from: usize, to: usize) -> bool
    requires { Range text.now from to × (from < to) }
    ensures { result ≡ is_some (numeral (slice from to text.now)) }
{
    if text[from] > b'0' {
        if to - from <= MOST_DIGITS {
            return all_digits(text, from, to);
        }
    }
    if is_negative(text, from, to) {
        return all_digits(text, from + 1, to);
    }
    base_text::numeral::numeral(text, from, to).is_some()
}

// Whether a number stands right-aligned in some columns.
fn is_numeral(text: &[u8], from: usize, to: usize) -> bool
    requires { Range text.now from to }
    ensures { result ≡ is_some (in_columns (slice from to text.now)) }
{
    for i in from..to {
        if text[i] != b' ' {
            return is_number(text, i, to);
        }
    }
    false
}

// Whether the n fields from the index on are numbers.
fn all_numerals(text: &[u8], from: usize, to: usize, n: usize) -> bool
    requires { FieldsWithin text.now from to n }
    ensures { result ≡ is_some (field_numerals n (slice from to text.now)) }
{
    let mut at = from;
    for _ in 0..n {
        if !is_numeral(text, at, at + limits::FIELD_COLUMNS) {
            return false;
        }
        at += limits::FIELD_COLUMNS;
    }
    true
}

// Whether the first n bytes are a strict line.
pub fn is_strict(bytes: &[u8], n: usize) -> bool
    requires { length bytes.now ≡ cells }
    ensures { result ≡ is_strict (take n bytes.now) }
{
    if n < limits::HEAD_COLUMNS + limits::FIELD_COLUMNS {
        return false;
    }
    if n > limits::LINE_COLUMNS {
        return false;
    }
    let fields = (n - limits::HEAD_COLUMNS) / limits::FIELD_COLUMNS;
    if n != limits::HEAD_COLUMNS + fields * limits::FIELD_COLUMNS {
        return false;
    }
    if !tucson_lines::is_name(bytes, 0) {
        return false;
    }
    if !is_numeral(bytes, limits::NAME_COLUMNS, limits::HEAD_COLUMNS) {
        return false;
    }
    all_numerals(bytes, limits::HEAD_COLUMNS, n, fields)
}

// Whether the part has a byte that is not ASCII. All its bytes are looked at, since many at once take fewer instructions than one after
// another.
pub fn any_high(text: &[u8], from: usize, to: usize) -> bool
    requires { Range text.now from to }
    ensures { result ≡ any_high (slice from to text.now) }
{
    let mut any = false;
    for byte in &text[from..to] {
        any |= *byte >= tucson_columns::HIGH;
    }
    any
}
