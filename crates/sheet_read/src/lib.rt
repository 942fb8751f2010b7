// Reading the five lines: first all of them are looked through (sheet_read), and only then are the lists written.
#![tactic(auto)]

ghost use Rattle.spec_sheet.specs.SheetReading;
ghost use Rattle.sheet_read.specs.Scanned.{Scanned};
ghost use Rattle.std.specs.Prelude.{◌≡◌, ◌+◌, length};
ghost use Rattle.std.proofs.Math.Seq.{slice};
ghost use Rattle.base_text.specs.Bytes.{Range, index_where};
ghost use Rattle.sheet_read.specs.Machine.{is_separator, ListFits, ListPut, EndsAs};
ghost use Rattle.spec_sheet.specs.ReadSheet.{read_end};

use base_outcome::limits;
use sheet_lines::{Entry, Span};

// Where the five lists stand.
#[derive(Clone, Copy)]
pub struct FiveSpans {
    pub breaks: Span,
    pub degrees: Span,
    pub orders: Span,
    pub coefs: Span,
    pub positions: Span,
}

// Looks through the whole text: where its lists stand, or the place of code 10.
fn scan(text: &[u8]) -> Result<FiveSpans, u32>
    ensures { Scanned text.now (SheetReading.read text.now) result }
{
    if text.len() > limits::SHEET_LIMIT {
        return Err(0);
    }
    let breaks = sheet_lines::line(text, 0, b"breaks=", Entry::Numeral).ok_or(1u32)?;
    let degrees = sheet_lines::line(text, breaks.to + 1, b"degrees=", Entry::Numeral).ok_or(2u32)?;
    let orders = sheet_lines::line(text, degrees.to + 1, b"orders=", Entry::Numeral).ok_or(3u32)?;
    let coefs = sheet_lines::line(text, orders.to + 1, b"coefs=", Entry::Pair).ok_or(4u32)?;
    let positions = sheet_lines::line(text, coefs.to + 1, b"at=", Entry::Numeral).ok_or(5u32)?;
    if positions.to + 1 != text.len() {
        return Err(6);
    }
    Ok(FiveSpans {
        breaks,
        degrees,
        orders,
        coefs,
        positions,
    })
}

// The most numbers of the list of coefficients, two a pair.
pub const COEFFICIENT_NUMBERS: usize = 2 * sheet_lines::LIST_LIMIT;

// How many numbers the five lists have, two for each pair of coefficients.
#[derive(Clone, Copy)]
pub struct Lengths {
    pub breaks: usize,
    pub degrees: usize,
    pub orders: usize,
    pub coefs: usize,
    pub positions: usize,
}

// The first index from the one up to the other with a comma or a colon, or the end.
fn separator(text: &[u8], from: usize, to: usize) -> usize
    requires { Range text.now from to }
    ensures { result ≡ from + index_where is_separator (slice from to text.now) }
{
    let comma = base_text::fields::find(text, from, to, b',');
    base_text::fields::find(text, from, comma, b':')
}

// Writes the numbers of a good list to the front of the buffer, those of a pair side by side, and answers how many they are.
// What stands between the commas and colons of such a list are numbers.
fn fill(text: &[u8], span: Span, list: &mut [i32]) -> usize
    requires { ListFits text.now span.from span.to (length list.old) }
    ensures { ListPut text.now span.from span.to list.old list.new result }
{
    let mut n = 0;
    let mut start = span.from;
    // A `while`: a turn goes on behind the separator that it finds.
    while start < span.to {
        let stop = separator(text, start, span.to);
        list[n] = base_text::numeral::numeral(text, start, stop).unwrap();
        n += 1;
        start = stop + 1;
    }
    n
}

// The five lists of a sheet's text, each written to the front of its buffer, the coefficients as the numbers of their pairs
// side by side; or the place of code 10. The text may be any bytes: after code 10 no buffer is changed.
pub fn read(
    text: &[u8],
    breaks: &mut [i32; sheet_lines::LIST_LIMIT],
    degrees: &mut [i32; sheet_lines::LIST_LIMIT],
    orders: &mut [i32; sheet_lines::LIST_LIMIT],
    coefs: &mut [i32; COEFFICIENT_NUMBERS],
    positions: &mut [i32; sheet_lines::LIST_LIMIT],
) -> Result<Lengths, u32>
    ensures { EndsAs (read_end text.now breaks.old degrees.old orders.old
        coefs.old positions.old)
        result breaks.new degrees.new orders.new coefs.new positions.new }
{
    let spans = scan(text)?;
    Ok(Lengths {
        breaks: fill(text, spans.breaks, breaks),
        degrees: fill(text, spans.degrees, degrees),
        orders: fill(text, spans.orders, orders),
        coefs: fill(text, spans.coefs, coefs),
        positions: fill(text, spans.positions, positions),
    })
}
