// The first pass: every line is tested in its place, and series and widths are counted. Nothing is written.
#![tactic(auto)]

ghost use Rattle.std.specs.Prelude.{true, false, cond, ◌&&◌, ◌||◌, not, ◌≡◌, ◌≤◌, eqb};
ghost use Rattle.spec_tucson.specs.Line.{year_in_decade, same};
ghost use Rattle.spec_tucson.specs.TextReading.{read_text};
ghost use Rattle.tucson_lines.specs.Machine.{LineEnd};
ghost use Rattle.tucson_scan.specs.Scan.{scan_told, ExtendAsks, GoodPassed, LinePassed};

use base_outcome::{Refusal, codes};
use tucson_lines::units;

// How many series and widths a text has.
#[derive(Clone, Copy)]
pub struct Totals {
    pub series: usize,
    pub widths: usize,
}

// What a line leaves: whether its series goes on, how many widths it has, and if the series goes on the year that must come
// next and whether all widths so far are at most 9,999.
#[derive(Clone, Copy)]
pub struct Passed {
    pub more: bool,
    pub count: usize,
    pub next: i32,
    pub small: bool,
}

// Whether the year follows those of the series that is begun, if one is.
fn follows(begun: bool, next: i32, year: i32) -> bool
    ensures { result ≡ (not begun || (same year next && eqb (year_in_decade year) 0)) }
{
    if !begun {
        return true;
    }
    tucson_lines::both(
        tucson_lines::same(year, next),
        tucson_lines::year_in_decade(year) == 0,
    )
}

// What a good line leaves whose series goes on in the next, or the code of its refusal.
pub fn extend(
    begun: bool,
    next: i32,
    small: bool,
    year: i32,
    n: usize,
    front: bool,
    last: i32,
) -> Result<Passed, u8>
    requires { ExtendAsks year n }
    ensures { GoodPassed true begun next small year n front last result }
{
    if !tucson_lines::is_width(last) {
        return Err(codes::TUCSON_LINE);
    }
    if !follows(begun, next, year) {
        return Err(codes::TUCSON_YEAR);
    }
    let before = tucson_lines::both(small, front);
    let all = tucson_lines::both(before, last <= units::HUNDREDTHS_LIMIT);
    Ok(Passed {
        more: true,
        count: n,
        next: year + n as i32,
        small: all,
    })
}

// What a good line leaves that is its series' last, or the code of its refusal.
pub fn close(
    begun: bool,
    next: i32,
    small: bool,
    year: i32,
    n: usize,
    front: bool,
    last: i32,
) -> Result<Passed, u8>
    requires { 1 ≤ n }
    ensures { GoodPassed false begun next small year n front last result }
{
    if !follows(begun, next, year) {
        return Err(codes::TUCSON_YEAR);
    }
    if tucson_lines::same(last, units::THOUSANDTHS) {
        return Ok(Passed {
            more: false,
            count: n - 1,
            next: 0,
            small: true,
        });
    }
    let all = tucson_lines::both(small, front);
    if tucson_lines::both(tucson_lines::same(last, units::HUNDREDTHS), all) {
        return Ok(Passed {
            more: false,
            count: n - 1,
            next: 0,
            small: true,
        });
    }
    Err(codes::TUCSON_CLOSING)
}

// Tests the line from the one index up to the other.
fn pass(
    text: &[u8],
    from: usize,
    end: usize,
    begun: bool,
    next: i32,
    small: bool,
) -> Result<Passed, u8>
    requires { LineEnd text.now from end }
    ensures { LinePassed text.now from end begun next small result }
{
    let line = tucson_lines::line(text, from, end).ok_or(codes::TUCSON_LINE)?;
    if tucson_lines::goes_on(text, from, end) {
        return extend(
            begun, next, small, line.year, line.count, line.small, line.last,
        );
    }
    close(
        begun, next, small, line.year, line.count, line.small, line.last,
    )
}

// One series more, unless it is still open.
fn whole(more: bool) -> usize
    ensures { result ≡ cond more 0 1 }
{
    if more {
        return 0;
    }
    1
}

// Looks through the whole text.
pub fn scan(text: &[u8]) -> Result<Totals, Refusal>
    ensures { result ≡ scan_told 0 0 (read_text text.now) }
{
    let mut from = 0;
    let mut lines = 1;
    let mut series = 0;
    let mut widths = 0;
    let mut begun = false;
    let mut next = 0;
    let mut small = true;
    // A `while`: each turn goes on behind the end of a line.
    while from < text.len() {
        let end = base_text::fields::find(text, from, text.len(), b'\n');
        let line = match pass(text, from, end, begun, next, small) {
            Ok(line) => line,
            Err(code) => {
                return Err(Refusal {
                    code,
                    place: base_outcome::place(lines),
                });
            }
        };
        series += whole(line.more);
        widths += line.count;
        begun = line.more;
        next = line.next;
        small = line.small;
        from = end + 1;
        lines += 1;
    }
    Ok(Totals { series, widths })
}
