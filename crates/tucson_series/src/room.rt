// Code 1: whether the text of the series has room in the buffer. It is known from the years and the counts.
ghost use Rattle.std.specs.Prelude.{◌≡◌, true, leb};
ghost use Rattle.tucson_series.specs.Sizes.{closing_fits, series_bytes, text_bytes, ClosedSeries};

use crate::writable;
use base_outcome::limits;

// The bytes of a line beside its fields: name, year and byte 10.
const LINE_BYTES: usize = limits::HEAD_COLUMNS + 1;

// The bytes of a series: so many widths from this year on, and the closing.
fn series_bytes(year: i32, count: usize) -> usize
    requires { closing_fits year count ≡ true }
    ensures { result ≡ series_bytes year count }
{
    let line_room = writable::years_left(year) % limits::DECADE;
    let lines = (limits::DECADE - 1 - line_room + count) / limits::DECADE + 1;
    (count + 1) * limits::FIELD_COLUMNS + lines * LINE_BYTES
}

// Whether the series are no longer than this. What is left of it falls from series to series, so that no sum can overflow.
pub fn text_fits(years: &[i32], counts: &[u32], room: usize) -> bool
    requires { ClosedSeries years.now counts.now }
    ensures { result ≡ leb (text_bytes years.now counts.now) room }
{
    let mut left = room;
    for (year, count) in years.iter().zip(counts) {
        let bytes = series_bytes(*year, *count as usize);
        if bytes > left {
            return false;
        }
        left -= bytes;
    }
    true
}
