// The numbers of one line of the table of indices (§ 17): how many bytes they have with their commas and byte 10, and they put into a
// buffer that has room for them.
#![tactic(auto)]

ghost use Rattle.std.specs.Prelude.{◌≡◌, [], ◌∷◌, ◌++◌, ◌+◌, ◌≤◌, length};
ghost use Rattle.base_text.specs.Bytes.{newline, comma};
ghost use Rattle.base_text.specs.Numeral.{decimal};
ghost use Rattle.spec_table.specs.Decimals.{width_text, curve_text, index_text};
ghost use Rattle.spec_table.specs.RingLines.{numbers_text};
ghost use Rattle.tucson_putting.specs.Putting.{Wrote};

// The index of an absent ring.
const ABSENT: i64 = -1;

// Four commas and the byte that ends a line.
const SEPARATORS: usize = 5;

// How many bytes an index has: none for an absent ring.
fn index_size(index: i64) -> usize
    ensures value { result ≡ length (index_text index) }
    ensures upper_bound { result ≤ 21 }
{
    if index == ABSENT {
        return 0;
    }
    table_numbers::whole_size(index)
}

// The index, or nothing for an absent ring.
fn put_index(out: &mut [u8], at: usize, index: i64) -> usize
    requires { at + length (index_text index) ≤ length out.old }
    ensures { Wrote at (index_text index) out.old out.new result }
{
    if index == ABSENT {
        return at;
    }
    table_numbers::put_whole(out, at, index)
}

// How many bytes a line has behind its name.
pub fn numbers_size(year: i64, width: i32, value: i32, index: i64) -> usize
    ensures value { result ≡ length (numbers_text year width value index) }
    ensures upper_bound { result ≤ 100 }
{
    let millionths = table_numbers::millionths(value);
    let years = table_numbers::whole_size(year);
    let widths = table_numbers::thousandths_size(width as i64);
    let curves = table_numbers::millionths_size(millionths);
    years + widths + curves + index_size(index) + SEPARATORS
}

// The year behind a comma.
fn put_year(out: &mut [u8], at: usize, year: i64) -> usize
    requires { at + (1 + length (decimal year)) ≤ length out.old }
    ensures { Wrote at (comma ∷ decimal year) out.old out.new result }
{
    let next = table_numbers::put_byte(out, at, b',');
    table_numbers::put_whole(out, next, year)
}

// The width behind a comma.
fn put_width(out: &mut [u8], at: usize, width: i32) -> usize
    requires { at + (1 + length (width_text width)) ≤ length out.old }
    ensures { Wrote at (comma ∷ width_text width) out.old out.new result }
{
    let next = table_numbers::put_byte(out, at, b',');
    table_numbers::put_thousandths(out, next, width as i64)
}

// The curve behind a comma.
fn put_curve(out: &mut [u8], at: usize, value: i32) -> usize
    requires { at + (1 + length (curve_text value)) ≤ length out.old }
    ensures { Wrote at (comma ∷ curve_text value) out.old out.new result }
{
    let millionths = table_numbers::millionths(value);
    let next = table_numbers::put_byte(out, at, b',');
    table_numbers::put_millionths(out, next, millionths)
}

// The index behind a comma, and the line's end.
fn put_end(out: &mut [u8], at: usize, index: i64) -> usize
    requires { at + (1 + length (index_text index) + 1) ≤ length out.old }
    ensures { Wrote at (comma ∷ (index_text index ++ (newline ∷ []))) out.old out.new result }
{
    let next = table_numbers::put_byte(out, at, b',');
    let end = put_index(out, next, index);
    table_numbers::put_byte(out, end, b'\n')
}

// A line behind its name.
pub fn put_numbers(
    out: &mut [u8],
    at: usize,
    year: i64,
    width: i32,
    value: i32,
    index: i64,
) -> usize
    requires { at + length (numbers_text year width value index) ≤ length out.old }
    ensures { Wrote at (numbers_text year width value index) out.old out.new result }
{
    let a = put_year(out, at, year);
    let b = put_width(out, a, width);
    let c = put_curve(out, b, value);
    put_end(out, c, index)
}
