// One strict line judged, once it is known whether its series goes on in the next: codes 23, 24 and 25, and the strict reader's own
// codes. What was found of each kind so far is kept side by side, since 23 comes before 24 and 25, and these before the reader's.
#![tactic(auto)]

ghost use Rattle.std.specs.Prelude.{true, cond, ◌&&◌, ◌||◌, ◌≡◌, ◌+◌, ◌≤◌, leb};
ghost use Rattle.std.proofs.Math.Option.{some, none};
ghost use Rattle.base_outcome.specs.Search;
ghost use Rattle.spec_tucson.specs.Line.{decade, year_in_decade, is_width, thousandths};
ghost use Rattle.spec_tucson.specs.Line;
ghost use Rattle.spec_tucson.specs.Series.{hundredths};
ghost use Rattle.spec_tucson.specs.CleanSeries.{closing_of, is_unit_fault, closing_after, or_fault};
ghost use Rattle.tucson_lines.specs.Machine.{line_found};
ghost use Rattle.tucson_judge.specs.Judging.{mark_found, closing_fault_of, last_after, FactsFit, PassedOf, ReaderNext};
ghost use Rattle.tucson_judge.specs.Judging.{LineAsks, JudgedNext, Concluded};

use base_outcome::{Refusal, codes, limits};
use tucson_fields::Facts;
use tucson_lines::units;
use tucson_scan::Passed;

// A code and the line that it is for.
#[derive(Clone, Copy)]
pub struct Mark {
    pub code: u8,
    pub line: usize,
}

// The strict reader: whether a series is begun, the year that must come next, and whether all widths so far are at most 9,999.
#[derive(Clone, Copy)]
pub struct Reader {
    pub begun: bool,
    pub next: i32,
    pub small: bool,
}

// What was found in the lines so far: the first line of code 23, the first of codes 24 and 25, the first line of this series with 999
// before the closing, and the reader or its refusal. Line 0 stands for none.
#[derive(Clone, Copy)]
pub struct Judged {
    pub year: usize,
    pub fault: Option<Mark>,
    pub seen: usize,
    pub reader: Result<Reader, Mark>,
}

// The one line, if there is one, or this line where the test holds.
fn first_line(line: usize, here: bool, number: usize) -> usize
    requires { 1 ≤ number }
    ensures { line_found result ≡ Search.or_else (line_found line) (cond here (some number) none) }
{
    if line != 0 {
        return line;
    }
    if here {
        return number;
    }
    0
}

// ---- the closing

// The closing of a unit that is said.
fn closing_of(unit: u32) -> i32
    ensures { result ≡ closing_of unit }
{
    if unit == units::HUNDREDTHS_SAID {
        return units::HUNDREDTHS;
    }
    units::THOUSANDTHS
}

// Whether the closing does not fit what is said of the unit.
fn is_unit_fault(unit: u32, closing: i32) -> bool
    ensures { result ≡ is_unit_fault unit closing }
{
    if unit == units::UNIT_NOT_SAID {
        return tucson_lines::same(closing, units::UNKNOWN_UNIT);
    }
    if unit == units::HUNDREDTHS_SAID {
        return tucson_lines::same(closing, units::THOUSANDTHS);
    }
    tucson_lines::same(closing, units::HUNDREDTHS)
}

// The last field of a series, as the unit that is said makes it.
pub fn closing_after(unit: u32, closing: i32) -> i32
    ensures { result ≡ closing_after unit closing }
{
    if !tucson_lines::same(closing, units::UNKNOWN_UNIT) {
        return closing;
    }
    if unit == units::UNIT_NOT_SAID {
        return closing;
    }
    closing_of(unit)
}

// The last field of a line, as the unit makes it where the series does not go on.
fn last_after(unit: u32, goes: bool, last: i32) -> i32
    ensures { result ≡ last_after unit goes last }
{
    if goes {
        return last;
    }
    closing_after(unit, last)
}

// The first of codes 24 and 25, with those of a series whose last line this is.
fn closing_mark(m: Option<Mark>, unit: u32, seen: usize, number: usize, last: i32) -> Option<Mark>
    ensures { mark_found result ≡ or_fault (mark_found m) (closing_fault_of unit (line_found seen) number last) }
{
    if m.is_some() {
        return m;
    }
    if is_unit_fault(unit, last) {
        return Some(Mark {
            code: codes::FILE_UNIT,
            line: number,
        });
    }
    if seen == 0 {
        return None;
    }
    if tucson_lines::same(closing_after(unit, last), units::HUNDREDTHS) {
        return Some(Mark {
            code: codes::FILE_CLOSING,
            line: seen,
        });
    }
    None
}

// ---- the strict reader

// Whether a line with these numbers is good as its series' last.
fn is_good(year: i32, count: usize, widths: bool, last: i32) -> bool
    requires { count ≤ decade }
    ensures { result ≡ (leb (year_in_decade year + count) decade && (widths && (is_width last || Line.same last thousandths))) }
{
    let ends = tucson_lines::either(
        tucson_lines::is_width(last),
        tucson_lines::same(last, units::THOUSANDTHS),
    );
    tucson_lines::both(
        tucson_lines::year_in_decade(year) + count <= limits::DECADE,
        tucson_lines::both(widths, ends),
    )
}

// Tests a line with these numbers and this last field: what it leaves, or the code of its refusal.
fn pass(f: Facts, last: i32, goes: bool, r: Reader) -> Result<Passed, u8>
    requires { FactsFit f }
    ensures { PassedOf f last goes r result }
{
    if !is_good(f.year, f.count, f.widths, last) {
        return Err(codes::TUCSON_LINE);
    }
    if goes {
        return tucson_scan::extend(r.begun, r.next, r.small, f.year, f.count, f.small, last);
    }
    tucson_scan::close(r.begun, r.next, r.small, f.year, f.count, f.small, last)
}

// The reader behind a line with these numbers, or its refusal.
fn read(
    r: Result<Reader, Mark>,
    f: Facts,
    goes: bool,
    unit: u32,
    number: usize,
) -> Result<Reader, Mark>
    requires { FactsFit f }
    ensures { ReaderNext unit f goes number r result }
{
    let before = r?;
    match pass(f, last_after(unit, goes, f.last), goes, before) {
        Ok(line) => Ok(Reader {
            begun: line.more,
            next: line.next,
            small: line.small,
        }),
        Err(code) => Err(Mark { code, line: number }),
    }
}

// ---- all codes

// Whether 999 is one of the fields before the closing.
fn has_nine(goes: bool, nine: bool, last: i32) -> bool
    ensures { result ≡ (nine || (goes && Line.same last hundredths)) }
{
    let closes = tucson_lines::same(last, units::HUNDREDTHS);
    tucson_lines::either(nine, tucson_lines::both(goes, closes))
}

// What is found behind a strict line that follows its series or not, and whose series goes on or not.
pub fn judge(j: Judged, line: &[u8], number: usize, follows: bool, goes: bool, unit: u32) -> Judged
    requires { LineAsks line.now number }
    ensures { JudgedNext unit line.now number follows goes j result }
{
    let f = tucson_fields::numbers(line);
    let alone = tucson_lines::both(!follows, !goes);
    let year = first_line(j.year, tucson_names::runs_in(line, alone), number);
    let seen = first_line(j.seen, has_nine(goes, f.nine, f.last), number);
    let reader = read(j.reader, f, goes, unit, number);
    if goes {
        return Judged {
            year,
            fault: j.fault,
            seen,
            reader,
        };
    }
    Judged {
        year,
        fault: closing_mark(j.fault, unit, seen, number, f.last),
        seen: 0,
        reader,
    }
}

// The verdict behind the last line.
pub fn conclude(j: Judged) -> Result<(), Refusal>
    ensures { Concluded j result }
{
    if j.year != 0 {
        return Err(Refusal {
            code: codes::FILE_NAME,
            place: base_outcome::place(j.year),
        });
    }
    if let Some(fault) = j.fault {
        return Err(Refusal {
            code: fault.code,
            place: base_outcome::place(fault.line),
        });
    }
    if let Err(refused) = j.reader {
        return Err(Refusal {
            code: refused.code,
            place: base_outcome::place(refused.line),
        });
    }
    Ok(())
}
