// Reading a Tucson text: first all lines are looked through, then the lent buffers are compared with what was found, and only
// then are they written.
#![tactic(auto)]

ghost use Rattle.std.specs.Prelude.{cond, ◌≡◌, ◌+◌, length};
ghost use Rattle.std.proofs.Math.Seq.{slice};
ghost use Rattle.std.proofs.lemmas.List.Edits.{sets};
ghost use Rattle.spec_tucson.specs.Line.{field_numerals, name_columns};
ghost use Rattle.spec_tucson.specs.Series.{from_hundredths};
ghost use Rattle.tucson_read.specs.Write.{numerals_of, in_thousandths, FieldsAt, NameAt, WidthsAt, EntryAsks, WriteAsks, Entered};
ghost use Rattle.tucson_read.specs.Write.{Written};
ghost use Rattle.spec_tucson.specs.ReadCall.{read_end};
ghost use Rattle.base_outcome.specs.Machine.{reply};

use base_outcome::{Refusal, codes, limits};
use tucson_lines::units;

// Thousandths in a hundredth.
const PER_HUNDREDTH: i32 = 10;

// Writes the numbers of n fields from the index on. Each is a number.
fn fill(text: &[u8], from: usize, to: usize, n: usize, widths: &mut [i32], at: usize)
    requires { FieldsAt text.now from to n at (length widths.old) }
    ensures { widths.new
        ≡ sets widths.old at (numerals_of (field_numerals n (slice from to text.now))) }
{
    for i in 0..n {
        let start = from + i * limits::FIELD_COLUMNS;
        let field = tucson_lines::numeral(text, start, start + limits::FIELD_COLUMNS);
        widths[at + i] = field.unwrap();
    }
}

// Writes a name's eight bytes.
fn copy_name(text: &[u8], from: usize, names: &mut [u8], at: usize)
    requires { NameAt text.now from names.old at }
    ensures { names.new ≡ sets names.old at (slice from (from + name_columns) text.now) }
{
    let name = &text[from..from + limits::NAME_COLUMNS];
    names[at..at + limits::NAME_COLUMNS].copy_from_slice(name);
}

// Hundredths become thousandths, from the one index up to the other.
fn scale(widths: &mut [i32], from: usize, to: usize)
    requires { WidthsAt widths.old from to }
    ensures { widths.new ≡ sets widths.old from (from_hundredths (slice from to widths.old)) }
{
    for w in widths[from..to].iter_mut() {
        *w *= PER_HUNDREDTH;
    }
}

// The widths from the one index up to the other in thousandths, by the closing.
fn convert(closing: i32, widths: &mut [i32], from: usize, to: usize)
    requires { WidthsAt widths.old from to }
    ensures { widths.new ≡ sets widths.old from (in_thousandths closing (slice from to widths.old)) }
{
    if tucson_lines::same(closing, units::HUNDREDTHS) {
        scale(widths, from, to);
        return;
    }
}

// Writes the name, the first year and the count of a series.
fn enter(
    text: &[u8],
    from: usize,
    first: i32,
    count: usize,
    names: &mut [u8],
    years: &mut [i32],
    counts: &mut [u32],
    series: usize,
)
    requires { EntryAsks text.now from count names.old years.old counts.old series }
    ensures { Entered text.now from first count series names.old years.old counts.old
        names.new years.new counts.new }
{
    copy_name(text, from, names, series * limits::NAME_COLUMNS);
    years[series] = first;
    counts[series] = count as u32;
}

// The year with which the series began: this line's, if none is begun.
fn first_year(begun: bool, first: i32, year: i32) -> i32
    ensures { result ≡ cond begun first year }
{
    if begun {
        return first;
    }
    year
}

// Writes the series of the text to the fronts of the buffers. Every line is good.
fn write(text: &[u8], names: &mut [u8], years: &mut [i32], counts: &mut [u32], widths: &mut [i32])
    requires { WriteAsks text.now names.old years.old counts.old widths.old }
    ensures { Written text.now names.old years.old counts.old widths.old
        names.new years.new counts.new widths.new }
{
    let mut from = 0;
    let mut series = 0;
    let mut start = 0;
    let mut at = 0;
    let mut begun = false;
    let mut first = 0;
    // A `while`: a turn goes on behind the end of a line.
    while from < text.len() {
        let end = base_text::fields::find(text, from, text.len(), b'\n');
        let line = tucson_lines::line(text, from, end).unwrap();
        let fields = from + limits::HEAD_COLUMNS;
        first = first_year(begun, first, line.year);
        if tucson_lines::goes_on(text, from, end) {
            fill(text, fields, end, line.count, widths, at);
            at += line.count;
            begun = true;
            from = end + 1;
            continue;
        }
        fill(text, fields, end, line.count - 1, widths, at);
        at += line.count - 1;
        convert(line.last, widths, start, at);
        enter(text, from, first, at - start, names, years, counts, series);
        series += 1;
        start = at;
        begun = false;
        from = end + 1;
    }
}

// Reads the series of a Tucson text: eight bytes of name, the first year and the number of widths of each, and all widths in
// thousandths of a millimetre one series after another. The text and the buffers may have any length and content.
pub fn read(
    text: &[u8],
    names: &mut [u8],
    years: &mut [i32],
    counts: &mut [u32],
    widths: &mut [i32],
) -> Result<usize, Refusal>
    ensures { let e = read_end text.now names.old years.old counts.old
        widths.old in
        (reply result ≡ e.answers) × ((names.new ≡ e.names)
        × ((years.new ≡ e.years) × ((counts.new ≡ e.counts) × (widths.new ≡ e.widths)))) }
{
    let totals = tucson_scan::scan(text)?;
    if names.len() / limits::NAME_COLUMNS < totals.series
        || years.len() < totals.series
        || counts.len() < totals.series
        || widths.len() < totals.widths
    {
        return Err(Refusal {
            code: codes::SHORT_BUFFER,
            place: 0,
        });
    }
    write(text, names, years, counts, widths);
    Ok(totals.series)
}
