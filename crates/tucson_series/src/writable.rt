// Code 11: the first series that can't be written.
ghost use Rattle.std.specs.Prelude.{◌≡◌, true, ◌+◌};
ghost use Rattle.std.proofs.Math.Seq.{slice};
ghost use Rattle.base_outcome.specs.Tests.{between};
ghost use Rattle.base_outcome.specs.Machine.{found};
ghost use Rattle.spec_tucson.specs.Line.{name_columns};
ghost use Rattle.spec_tucson.specs.Writing.{least_year, greatest_year, all_widths, is_writable, unwritable};
ghost use Rattle.spec_tucson.specs.WriteCall.{lists_fit, series_of};
ghost use Rattle.tucson_series.specs.Sizes.{series, years_left, closing_fits, NameBehind};

use base_outcome::limits;

const LEAST_YEAR: i32 = -999;

pub const GREATEST_YEAR: i32 = 9999;

// Every width is allowed.
fn all_widths(widths: &[i32]) -> bool
    ensures { result ≡ all_widths widths.now }
{
    widths
        .iter()
        .all(|width| *width >= 0 && *width <= limits::WIDTH_LIMIT)
}

// How many years after this one can be written.
pub fn years_left(year: i32) -> usize
    requires { between least_year greatest_year year ≡ true }
    ensures { result ≡ years_left year }
{
    (GREATEST_YEAR - year) as usize
}

// Whether the years of all lines with so many widths from this year on, and the closing, can be written. The last line's year
// ends in 0 or is the first year, so that it can be written where the closing's year can.
fn years_fit(year: i32, count: usize) -> bool
    ensures { result ≡ closing_fits year count }
{
    if year < LEAST_YEAR {
        return false;
    }
    if year > GREATEST_YEAR {
        return false;
    }
    count <= years_left(year)
}

// The series whose name stands from this index on, behind the name from the index before.
fn is_writable(names: &[u8], before: usize, at: usize, year: i32, widths: &[i32]) -> bool
    requires { NameBehind names.now before at }
    ensures { result ≡ is_writable (slice before at names.now)
        (series (slice at (at + name_columns) names.now) year widths.now) }
{
    if !tucson_lines::is_name(names, at) {
        return false;
    }
    if !all_widths(widths) {
        return false;
    }
    if !years_fit(year, widths.len()) {
        return false;
    }
    let end = at + limits::NAME_COLUMNS;
    !base_text::fields::begins(names, before, at, &names[at..end])
}

// The first series that can't be written.
pub fn first_unwritable(
    names: &[u8],
    years: &[i32],
    counts: &[u32],
    widths: &[i32],
) -> Option<usize>
    requires { lists_fit names.now years.now counts.now widths.now ≡ true }
    ensures { result ≡ found (unwritable (series_of names.now years.now counts.now
        widths.now)) }
{
    let mut before = 0;
    let mut at = 0;
    let mut from = 0;
    for k in 0..years.len() {
        let to = from + counts[k] as usize;
        if !is_writable(names, before, at, years[k], &widths[from..to]) {
            return Some(k);
        }
        before = at;
        at += limits::NAME_COLUMNS;
        from = to;
    }
    None
}
