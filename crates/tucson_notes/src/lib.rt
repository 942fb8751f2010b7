// The notes of a line: cells of a list of notes, and what is remarked on a strict line by its fields and its series.
#![tactic(auto)]

pub mod kinds;

ghost use Rattle.std.specs.Prelude.{true, cond, [], ◌∷◌, ◌≡◌, ◌+◌, ◌<◌, ◌≤◌, ◌^◌, length, take};
ghost use Rattle.std.proofs.Math.Seq.{slice};
ghost use Rattle.base_print.specs.Buffer.{Puts};
ghost use Rattle.spec_tucson.specs.Columns.{in_columns, columns};
ghost use Rattle.spec_tucson.specs.Line.{field_columns};
ghost use Rattle.spec_tucson.specs.CleanSeries.{fields_of, closing_of};
ghost use Rattle.spec_tucson.specs.CleanNotes.{note_if, at_line, has_last_width, is_other_unit};
ghost use Rattle.tucson_notes.specs.Machine.{number_in, before_in, FieldsAsk, BeforeAsks, SumsUp, EndsWith, ahead_of};
ghost use Rattle.tucson_notes.specs.Machine.{TellsWidth, TellsAbsent, TellsLike, PutsRemarks};
ghost use Rattle.tucson_notes.specs.Machine.{shown_marked, form_marked, PutsMarks, StrictAsks, bytes_per_line, strict_put};

use base_outcome::limits;
use tucson_lines::units;

// The most bytes that a line of the file takes in the strict text: `bytes_per_line` of specs/Machine.
pub const BYTES_PER_LINE: usize = 79;

// The most cells of its notes: `cells_per_line`.
pub const CELLS_PER_LINE: usize = 22;

// The most cells of the notes on the file as a whole: `cells_per_file`.
pub const CELLS_PER_FILE: usize = 4;

// The fields of a strict line: how many, the first, the last, and the one before the last, 0 where there is none.
#[derive(Clone, Copy)]
pub struct Fields {
    pub count: usize,
    pub first: i32,
    pub last: i32,
    pub before: i32,
}

// The last field of a strict line, and how many there are.
#[derive(Clone, Copy)]
pub struct Ending {
    pub count: usize,
    pub last: i32,
}

// What stands ahead of a line in its series: how many lines with this one, the closing, and how many fields the last line has.
#[derive(Clone, Copy)]
pub struct Ahead {
    pub count: usize,
    pub closing: i32,
    pub fields: usize,
}

// What was changed in a line: byte 26 ends it, byte 13 and tabs were there, trailing blanks and a site name were taken off, it had no
// end, it was not ASCII, its closing is the caller's.
#[derive(Clone, Copy)]
pub struct Marks {
    pub cut: bool,
    pub returned: bool,
    pub tabbed: bool,
    pub trailing: bool,
    pub site: bool,
    pub unended: bool,
    pub high: bool,
    pub reclosed: bool,
}

// One cell.
pub fn put_cell(cells: &mut [usize], at: usize, number: usize) -> usize
    requires { at < 18446744073709551615 }
    ensures { Puts 1 at (number ∷ []) cells.old cells.new result }
{
    if at < cells.len() {
        cells[at] = number;
    }
    at + 1
}

// A note on a line, where it applies.
pub fn put_note(cells: &mut [usize], at: usize, applies: bool, note: usize, line: usize) -> usize
    requires { at < 2 ^ 63 }
    ensures { Puts 2 at (at_line line (note_if applies note [])) cells.old cells.new result }
{
    if applies {
        let next = put_cell(cells, at, note);
        return put_cell(cells, next, line);
    }
    at
}

// The number in a field of a line, from this index on; 0 where none stands there.
fn field(line: &[u8], from: usize) -> i32
    requires { from + field_columns ≤ length line.now }
    ensures { result ≡ number_in (in_columns (slice from (from + field_columns) line.now)) }
{
    tucson_lines::numeral(line, from, from + limits::FIELD_COLUMNS).unwrap_or(0)
}

// The field before the last of a line with so many fields and this first one, which ends at this index; 0 where there is one alone.
fn field_before(line: &[u8], count: usize, n: usize, first: i32) -> i32
    requires { BeforeAsks line.now count n first }
    ensures { result ≡ before_in count n line.now }
{
    if count < 2 {
        return 0;
    }
    if count == 2 {
        return first;
    }
    field(line, n - 2 * limits::FIELD_COLUMNS)
}

// What the fields of a strict line of n bytes are.
pub fn summed(line: &[u8], n: usize) -> Fields
    requires { FieldsAsk line.now n }
    ensures { SumsUp (fields_of (take n line.now)) result }
{
    let count = (n - limits::HEAD_COLUMNS) / limits::FIELD_COLUMNS;
    let first = field(line, limits::HEAD_COLUMNS);
    let last = field(line, n - limits::FIELD_COLUMNS);
    let before = field_before(line, count, n, first);
    Fields {
        count: count,
        first: first,
        last: last,
        before: before,
    }
}

// The last field of a strict line of n bytes, and how many there are.
pub fn last_field(line: &[u8], n: usize) -> Ending
    requires { FieldsAsk line.now n }
    ensures { EndsWith (fields_of (take n line.now)) result }
{
    let count = (n - limits::HEAD_COLUMNS) / limits::FIELD_COLUMNS;
    let last = field(line, n - limits::FIELD_COLUMNS);
    Ending {
        count: count,
        last: last,
    }
}

// Whether a line of these fields, its series' last or not, has a width.
fn has_width(last: bool, fields: Fields) -> bool
    ensures { TellsWidth last fields result }
{
    if last {
        return fields.count >= 2;
    }
    true
}

// The last width of such a line; 0 where it has none.
fn last_width(last: bool, fields: Fields) -> i32
    ensures { result ≡ cond last fields.before fields.last }
{
    if last {
        return fields.before;
    }
    fields.last
}

// Whether a line has its series' last width, if it has one.
fn has_last_width(ahead: Ahead) -> bool
    ensures { result ≡ has_last_width (ahead_of ahead) }
{
    if ahead.count == 1 {
        return true;
    }
    if ahead.count == 2 {
        return ahead.fields == 1;
    }
    false
}

// Remark 12: the first or the last width of the series is in this line and is 0, or the series has no width.
fn is_absent_end(first: bool, ahead: Ahead, fields: Fields) -> bool
    ensures { TellsAbsent first ahead fields result }
{
    let last = ahead.count == 1;
    if !has_width(last, fields) {
        return first;
    }
    if tucson_lines::both(first, tucson_lines::same(fields.first, 0)) {
        return true;
    }
    tucson_lines::both(
        has_last_width(ahead),
        tucson_lines::same(last_width(last, fields), 0),
    )
}

// Remark 13: the last width of this line is 999 in a series of thousandths.
fn is_like_closing(ahead: Ahead, fields: Fields) -> bool
    ensures { TellsLike ahead fields result }
{
    let last = ahead.count == 1;
    if !has_width(last, fields) {
        return false;
    }
    tucson_lines::both(
        tucson_lines::same(ahead.closing, units::THOUSANDTHS),
        tucson_lines::same(last_width(last, fields), units::HUNDREDTHS),
    )
}

// Remark 14: the last line of a series whose closing is not that of the file's first one.
fn is_other_unit(first_closing: i32, ahead: Ahead) -> bool
    ensures { result ≡ is_other_unit first_closing (ahead_of ahead) }
{
    if ahead.count == 1 {
        return !tucson_lines::same(ahead.closing, first_closing);
    }
    false
}

// The remarks on a line, first of its series or not.
pub fn put_remarks(
    cells: &mut [usize],
    at: usize,
    line: usize,
    first_closing: i32,
    first: bool,
    ahead: Ahead,
    fields: Fields,
) -> usize
    requires { at < 2 ^ 62 }
    ensures { PutsRemarks at line first_closing first ahead fields cells.old cells.new result }
{
    let absent = is_absent_end(first, ahead, fields);
    let a = put_note(cells, at, absent, kinds::ABSENT_END, line);
    let like = is_like_closing(ahead, fields);
    let b = put_note(cells, a, like, kinds::LIKE_CLOSING, line);
    let other = is_other_unit(first_closing, ahead);
    put_note(cells, b, other, kinds::OTHER_UNIT, line)
}

// The notes of what is not shown of a line.
fn put_shown_marks(cells: &mut [usize], at: usize, line: usize, marks: Marks) -> usize
    requires { at < 2 ^ 62 }
    ensures { Puts 8 at (at_line line (shown_marked marks [])) cells.old cells.new result }
{
    let a = put_note(cells, at, marks.cut, kinds::CUT, line);
    let b = put_note(cells, a, marks.returned, kinds::RETURNED, line);
    let c = put_note(cells, b, marks.tabbed, kinds::TABBED, line);
    put_note(cells, c, marks.trailing, kinds::TRAILING, line)
}

// The notes of what is changed in what is shown.
fn put_form_marks(cells: &mut [usize], at: usize, line: usize, marks: Marks) -> usize
    requires { at < 2 ^ 62 }
    ensures { Puts 8 at (at_line line (form_marked marks [])) cells.old cells.new result }
{
    let a = put_note(cells, at, marks.site, kinds::SITE, line);
    let b = put_note(cells, a, marks.unended, kinds::UNENDED, line);
    let c = put_note(cells, b, marks.high, kinds::HIGH, line);
    put_note(cells, c, marks.reclosed, kinds::RECLOSED, line)
}

// The notes of what was changed in a line.
pub fn put_marks(cells: &mut [usize], at: usize, line: usize, marks: Marks) -> usize
    requires { at < 2 ^ 61 }
    ensures { PutsMarks at line marks cells.old cells.new result }
{
    let next = put_shown_marks(cells, at, line, marks);
    put_form_marks(cells, next, line, marks)
}

// The bytes of a line, one copy where there is room for them all.
fn put_bytes(out: &mut [u8], at: usize, line: &[u8]) -> usize
    requires { at < 2 ^ 62 }
    ensures { Puts (length line.now) at line.now out.old out.new result }
{
    if out.len() < at {
        return base_print::put_text(out, at, line);
    }
    if out.len() - at < line.len() {
        return base_print::put_text(out, at, line);
    }
    let end = at + line.len();
    out[at..end].copy_from_slice(line);
    end
}

// The closing of the unit that the caller says.
fn put_closing(out: &mut [u8], at: usize, unit: u32) -> usize
    requires { at < 2 ^ 62 }
    ensures { Puts 6 at (columns field_columns (closing_of unit)) out.old out.new result }
{
    if unit == units::HUNDREDTHS_SAID {
        return base_print::put_text(out, at, b"   999");
    }
    base_print::put_text(out, at, b" -9999")
}

// A strict line of n bytes, with the closing of the caller's unit or with its own, and its end.
pub fn put_strict(
    out: &mut [u8],
    at: usize,
    line: &[u8],
    n: usize,
    reclosed: bool,
    unit: u32,
) -> usize
    requires { StrictAsks line.now n at }
    ensures { Puts bytes_per_line at (strict_put line.now n reclosed unit) out.old out.new result }
{
    if reclosed {
        let front = n - limits::FIELD_COLUMNS;
        let a = base_print::put_text(out, at, &line[0..front]);
        let b = put_closing(out, a, unit);
        return base_print::put(out, b, b'\n');
    }
    let c = put_bytes(out, at, &line[0..n]);
    base_print::put(out, c, b'\n')
}
