// The text of series that can be written and have room, from an index on. Each function answers the index after its text.
#![tactic(auto)]

ghost use Rattle.std.specs.Prelude.{◌≡◌, [], ◌∷◌, ◌++◌, ◌+◌, ◌≤◌, length, replicate};
ghost use Rattle.base_text.specs.Numeral.{decimal};
ghost use Rattle.spec_tucson.specs.Columns.{blank, columns};
ghost use Rattle.spec_tucson.specs.Line.{head_columns, field_columns, thousandths};
ghost use Rattle.spec_tucson.specs.Writing.{fields_text, line_text, lines_text, series_lines, written};
ghost use Rattle.spec_tucson.specs.WriteCall.{series_of};
ghost use Rattle.tucson_series.specs.Sizes.{series, line_bytes, most_left, year_at};
ghost use Rattle.tucson_putting.specs.Putting.{Wrote, NumberFits, FieldsFit, LineFits, SeriesFits, AllFit, line, begun};

use base_outcome::limits;
use tucson_lines::units;
use tucson_series::writable::GREATEST_YEAR;

// So many blanks.
fn put_blanks(text: &mut [u8], at: usize, count: usize) -> usize
    requires { at + count ≤ length text.old }
    ensures { Wrote at (replicate count blank) text.old text.new result }
{
    let end = at + count;
    text[at..end].fill(b' ');
    end
}

// How many bytes a number has.
fn decimal_length(z: i64) -> usize
    ensures { result ≡ length (decimal z) }
{
    let size = base_division::magnitude(z);
    let count = base_print::digit_count(size);
    if z < 0 {
        return count + 1;
    }
    count
}

// A number at the end of so many columns.
fn put_columns(text: &mut [u8], at: usize, size: usize, z: i32) -> usize
    requires { NumberFits z size at (length text.old) }
    ensures { Wrote at (columns size z) text.old text.new result }
{
    let number = z as i64;
    let length = decimal_length(number);
    let next = put_blanks(text, at, size - length);
    base_print::put_decimal(text, next, number)
}

// Widths in six columns each.
fn put_fields(text: &mut [u8], at: usize, widths: &[i32]) -> usize
    requires { FieldsFit widths.now at (length text.old) }
    ensures { Wrote at (fields_text widths.now) text.old text.new result }
{
    let mut next = at;
    for width in widths {
        next = put_columns(text, next, limits::FIELD_COLUMNS, *width);
    }
    next
}

// Name, year and widths of a line.
fn put_begun(text: &mut [u8], at: usize, name: &[u8], year: i32, widths: &[i32]) -> usize
    requires { LineFits name.now year widths.now head_columns at (length text.old) }
    ensures { Wrote at (begun name.now year widths.now) text.old text.new result }
{
    let a = base_print::put_text(text, at, name);
    let b = put_columns(text, a, limits::YEAR_COLUMNS, year);
    put_fields(text, b, widths)
}

// A line of widths.
fn put_line(text: &mut [u8], at: usize, name: &[u8], year: i32, widths: &[i32]) -> usize
    requires { LineFits name.now year widths.now line_bytes at (length text.old) }
    ensures { Wrote at (line_text (line name.now year widths.now)) text.old text.new result }
{
    let a = put_begun(text, at, name, year, widths);
    base_print::put(text, a, b'\n')
}

// A series' last line: widths and the closing.
fn put_last_line(text: &mut [u8], at: usize, name: &[u8], year: i32, widths: &[i32]) -> usize
    requires { LineFits name.now year widths.now (line_bytes + field_columns) at (length text.old) }
    ensures { Wrote at (line_text (line name.now year (widths.now ++ (thousandths ∷ [])))) text.old
        text.new result }
{
    let a = put_begun(text, at, name, year, widths);
    let b = put_columns(text, a, limits::FIELD_COLUMNS, units::THOUSANDTHS);
    base_print::put(text, b, b'\n')
}

// The year after which so many can be written.
fn year_at(left: usize) -> i32
    requires { left ≤ most_left }
    ensures { result ≡ year_at left }
{
    GREATEST_YEAR - left as i32
}

// The lines of a series: up to the end of the first decade, then full decades, and the closing where the next width would
// stand. A line's year is counted by the years that are left after it.
fn put_series(text: &mut [u8], at: usize, name: &[u8], first: i32, widths: &[i32]) -> usize
    requires { SeriesFits name.now first widths.now at (length text.old) }
    ensures { Wrote at (lines_text (series_lines (series name.now first widths.now))) text.old
        text.new result }
{
    let mut next = at;
    let mut left = tucson_series::writable::years_left(first);
    let mut from = 0;
    // A `while`: the step is what is left of the decade.
    while widths.len() - from > left % limits::DECADE {
        let to = from + left % limits::DECADE + 1;
        let year = year_at(left);
        next = put_line(text, next, name, year, &widths[from..to]);
        left -= to - from;
        from = to;
    }
    let year = year_at(left);
    put_last_line(text, next, name, year, &widths[from..])
}

// All series, from the text's beginning on.
pub fn put_all(
    names: &[u8],
    years: &[i32],
    counts: &[u32],
    widths: &[i32],
    text: &mut [u8],
) -> usize
    requires { AllFit names.now years.now counts.now widths.now (length text.old) }
    ensures { Wrote 0 (written (series_of names.now years.now counts.now widths.now))
        text.old text.new result }
{
    let mut next = 0;
    let mut at = 0;
    let mut from = 0;
    for (year, count) in years.iter().zip(counts) {
        let end = at + limits::NAME_COLUMNS;
        let to = from + *count as usize;
        next = put_series(text, next, &names[at..end], *year, &widths[from..to]);
        at = end;
        from = to;
    }
    next
}
