// The lines of a laboratory's file below its header, gone through one after another.
#![tactic(auto)]

ghost use Rattle.std.specs.Prelude.{true, cond, ◌≡◌, ◌+◌, ◌≤◌, length, take};
ghost use Rattle.std.proofs.Math.Seq.{slice};
ghost use Rattle.base_print.specs.Buffer.{Puts};
ghost use Rattle.spec_tucson.specs.Line.{name_columns};
ghost use Rattle.spec_tucson.specs.StrictLine.{is_strict};
ghost use Rattle.spec_tucson.specs.KeptLines.{same_text};
ghost use Rattle.spec_tucson.specs.CleanNotes.{at_line};
ghost use Rattle.tucson_lines.specs.Machine.{LineEnd};
ghost use Rattle.tucson_notes.specs.Machine.{cells_per_line};
ghost use Rattle.tucson_walk.specs.Skipping.{SkipTold};
ghost use Rattle.tucson_walk.specs.Following.{FollowAsks, DiffersTold, Follows, LastAhead, AheadAsks, AheadTold};
ghost use Rattle.tucson_walk.specs.Walking.{EnterTold, LeaveTold, reclosing, marks_of, other_notes, OtherAsks, KeptAsks, PutsKept};
ghost use Rattle.tucson_walk.specs.Walking.{TakeAsks, TakeTold, TurnAsks, TurnTold, WalkAsks, WalkTold};

use base_outcome::limits;
use tucson_lines::units;
use tucson_notes::{Ahead, Fields, Marks, kinds};

// The line behind another one in its series: whether there is one, where the lines behind it begin, and how many bytes it has.
#[derive(Clone, Copy)]
pub struct Following {
    pub found: bool,
    pub past: usize,
    pub size: usize,
}

// A line that is not blank: where it begins and where it ends; or an index past the text.
#[derive(Clone, Copy)]
pub struct Unblank {
    pub at: usize,
    pub end: usize,
}

// What is known of the series of a line: what stands ahead of it, 0 lines where the next line begins a series; whether the closing of the
// file's first series is known, and that.
#[derive(Clone, Copy)]
pub struct Series {
    pub ahead: Ahead,
    pub known: bool,
    pub first: i32,
}

// The indices behind what is put: bytes of text, numbers of lines, cells of notes.
#[derive(Clone, Copy)]
pub struct Walked {
    pub bytes: usize,
    pub lines: usize,
    pub cells: usize,
}

// What is known of the series, and what is put, between two lines.
#[derive(Clone, Copy)]
pub struct Turn {
    pub series: Series,
    pub walked: Walked,
}

// The first line from this index on that is not blank, or an index past the text.
fn skip_blank(text: &[u8], from: usize) -> Unblank
    requires { from ≤ length text.now + 1 }
    ensures { SkipTold text.now from result.at result.end }
{
    let mut at = from;
    // A `while`: the step is what the line's length says.
    while at < text.len() {
        let end = base_text::fields::find(text, at, text.len(), b'\n');
        if !tucson_shown::is_blank_line(text, at, end) {
            return Unblank { at: at, end: end };
        }
        at = end + 1;
    }
    Unblank { at: at, end: at }
}

// Whether two lines have the same name.
fn same_name(line: &[u8], next: &[u8]) -> bool
    requires { (name_columns ≤ length line.now) × (name_columns ≤ length next.now) }
    ensures { result ≡ same_text (take name_columns line.now) (take name_columns next.now) }
{
    tucson_names::same_text(&line[..limits::NAME_COLUMNS], &next[..limits::NAME_COLUMNS])
}

// Whether the line from this index on has another name, by its first byte that differs: a plain one behind plain ones, and no blank.
fn differs(text: &[u8], past: usize, line: &[u8]) -> bool
    requires { FollowAsks text.now past line.now }
    ensures { DiffersTold text.now past line.now result }
{
    for i in 0..limits::NAME_COLUMNS {
        let at = past + i;
        if at >= text.len() {
            return false;
        }
        if text[at] < b' ' {
            return false;
        }
        if text[at] > b'~' {
            return false;
        }
        if text[at] != line[i] {
            return text[at] > b' ';
        }
    }
    false
}

// The line from this index on that goes on with the series of the line with this name, at the front of an array.
fn follow(
    text: &[u8],
    past: usize,
    line: &[u8],
    next: &mut [u8; tucson_columns::CELLS],
) -> Following
    requires { FollowAsks text.now past line.now }
    ensures { Follows text.now past line.now next.new result }
{
    if differs(text, past, line) {
        return Following {
            found: false,
            past: past,
            size: 0,
        };
    }
    let unblank = skip_blank(text, past);
    let at = unblank.at;
    let end = unblank.end;
    let none = Following {
        found: false,
        past: at,
        size: 0,
    };
    if at >= text.len() {
        return none;
    }
    let mut shown = [0; tucson_columns::CELLS];
    let Ok(l) = tucson_shown::strict_line(text, at, end, &mut shown, next) else {
        return none;
    };
    let same = same_name(line, next);
    Following {
        found: same,
        past: end + 1,
        size: l.size,
    }
}

// What stands ahead of the last line of a series, with so many lines from another one of its lines on.
fn last_ahead(line: &[u8], count: usize, unit: u32) -> Ahead
    requires { is_strict line.now ≡ true }
    ensures { LastAhead unit line.now count result }
{
    let ending = tucson_notes::last_field(line, line.len());
    let closing = tucson_judge::closing_after(unit, ending.last);
    Ahead {
        count: count,
        closing: closing,
        fields: ending.count,
    }
}

// What stands ahead of a strict line in its series, by the lines from this index on.
fn series_ahead(
    text: &[u8],
    past: usize,
    line: [u8; tucson_columns::CELLS],
    n: usize,
    unit: u32,
) -> Ahead
    requires { AheadAsks text.now past line n }
    ensures { AheadTold unit text.now past line n result }
{
    let mut old = line;
    let mut size = n;
    let mut at = past;
    let mut count = 1;
    // A `loop`: the step is what the next line's length says.
    loop {
        let mut next = [0; tucson_columns::CELLS];
        let found = follow(text, at, &old[..size], &mut next);
        if !found.found {
            return last_ahead(&old[..size], count, unit);
        }
        old = next;
        size = found.size;
        at = found.past;
        count += 1;
    }
}

// The closing of the file's first series, where this one closes so.
fn first_closing(s: Series, closing: i32) -> i32
    ensures { result ≡ cond s.known s.first closing }
{
    if s.known {
        return s.first;
    }
    closing
}

// What is known of the series at a strict line, by the lines from this index on.
fn enter(
    text: &[u8],
    past: usize,
    line: [u8; tucson_columns::CELLS],
    n: usize,
    unit: u32,
    s: Series,
) -> Series
    requires { AheadAsks text.now past line n }
    ensures { EnterTold unit text.now past line n s result }
{
    if s.ahead.count != 0 {
        return s;
    }
    let ahead = series_ahead(text, past, line, n, unit);
    let first = first_closing(s, ahead.closing);
    Series {
        ahead: ahead,
        known: true,
        first: first,
    }
}

// What is known of the series behind a line.
fn leave(s: Series) -> Series
    ensures { LeaveTold s result }
{
    let ahead = s.ahead;
    if ahead.count == 0 {
        return s;
    }
    Series {
        ahead: Ahead {
            count: ahead.count - 1,
            closing: ahead.closing,
            fields: ahead.fields,
        },
        known: s.known,
        first: s.first,
    }
}

// Whether a line with this last field, its series' last or not, gets the closing of the caller's unit.
fn is_reclosed(last: bool, closing: i32, unit: u32) -> bool
    ensures { result ≡ reclosing unit last closing }
{
    let unknown = tucson_lines::same(closing, units::UNKNOWN_UNIT);
    tucson_lines::both(
        last,
        tucson_lines::both(unknown, unit != units::UNIT_NOT_SAID),
    )
}

// What was changed in a line.
fn marks_of(
    text: &[u8],
    from: usize,
    end: usize,
    early: bool,
    site: bool,
    high: bool,
    reclosed: bool,
) -> Marks
    requires { LineEnd text.now from end }
    ensures { result ≡ marks_of early (slice from (end + 1) text.now) site high reclosed }
{
    let unended = end == text.len();
    Marks {
        cut: tucson_lines::both(early, unended),
        returned: tucson_shown::has_return(text, from, end),
        tabbed: tucson_shown::has_tab(text, from, end),
        trailing: tucson_shown::has_trailing(text, from, end),
        site: site,
        unended: unended,
        high: high,
        reclosed: reclosed,
    }
}

// The notes of a line that is left out: a blank one, or one of the header.
fn put_other(
    text: &[u8],
    from: usize,
    end: usize,
    early: bool,
    number: usize,
    notes: &mut [usize],
    at: usize,
) -> usize
    requires { OtherAsks text.now from end at }
    ensures { Puts cells_per_line at (at_line number (other_notes early (slice from (end + 1) text.now))) notes.old
        notes.new result }
{
    let marks = marks_of(text, from, end, early, false, false, false);
    if tucson_shown::is_blank_line(text, from, end) {
        let blank = Marks {
            cut: marks.cut,
            returned: marks.returned,
            tabbed: marks.tabbed,
            trailing: false,
            site: false,
            unended: false,
            high: false,
            reclosed: false,
        };
        let next = tucson_notes::put_marks(notes, at, number, blank);
        return tucson_notes::put_note(notes, next, true, kinds::BLANK, number);
    }
    let behind = tucson_notes::put_marks(notes, at, number, marks);
    tucson_notes::put_note(notes, behind, true, kinds::HEADER, number)
}

// A strict line that is kept, its number and its notes.
fn put_kept(
    line: &[u8],
    number: usize,
    unit: u32,
    marks: Marks,
    first: bool,
    s: Series,
    fields: Fields,
    w: Walked,
    out: &mut [u8],
    lines: &mut [usize],
    notes: &mut [usize],
) -> Walked
    requires { KeptAsks line.now w }
    ensures { PutsKept line.now number unit marks first s fields w out.old out.new
        lines.old lines.new notes.old notes.new result }
{
    let bytes = tucson_notes::put_strict(out, w.bytes, line, line.len(), marks.reclosed, unit);
    let count = tucson_notes::put_cell(lines, w.lines, number);
    let next = tucson_notes::put_marks(notes, w.cells, number, marks);
    let cells = tucson_notes::put_remarks(notes, next, number, s.first, first, s.ahead, fields);
    Walked {
        bytes: bytes,
        lines: count,
        cells: cells,
    }
}

// Takes a strict line of n bytes, of which these bytes are shown: it is put, and what is known of its series goes on.
fn take_line(
    text: &[u8],
    from: usize,
    end: usize,
    early: bool,
    number: usize,
    unit: u32,
    shown: &[u8],
    line: [u8; tucson_columns::CELLS],
    n: usize,
    site: bool,
    t: Turn,
    out: &mut [u8],
    lines: &mut [usize],
    notes: &mut [usize],
) -> Turn
    requires { TakeAsks text.now from end line n t }
    ensures { TakeTold unit early text.now from end number shown.now line n site t out.old
        out.new
        lines.old lines.new notes.old notes.new result }
{
    let old = t.series;
    let series = enter(text, end + 1, line, n, unit, old);
    let fields = tucson_notes::summed(&line[..n], n);
    let high = tucson_strict::any_high(shown, 0, shown.len());
    let reclosed = is_reclosed(series.ahead.count == 1, fields.last, unit);
    let marks = marks_of(text, from, end, early, site, high, reclosed);
    let first = old.ahead.count == 0;
    let walked = put_kept(
        &line[..n],
        number,
        unit,
        marks,
        first,
        series,
        fields,
        t.walked,
        out,
        lines,
        notes,
    );
    Turn {
        series: leave(series),
        walked: walked,
    }
}

// Takes a raw line with this number: what is put for it, and what is known of the series behind it.
fn step(
    text: &[u8],
    from: usize,
    end: usize,
    early: bool,
    header: usize,
    number: usize,
    unit: u32,
    t: Turn,
    out: &mut [u8],
    lines: &mut [usize],
    notes: &mut [usize],
) -> Turn
    requires { TurnAsks text.now from end t }
    ensures { TurnTold unit header early text.now from (end + 1) number t out.old out.new
        lines.old lines.new notes.old notes.new result }
{
    if !tucson_check::is_data(text, header, number, from, end) {
        let series = t.series;
        let w = t.walked;
        let cells = put_other(text, from, end, early, number, notes, w.cells);
        return Turn {
            series: series,
            walked: Walked {
                bytes: w.bytes,
                lines: w.lines,
                cells: cells,
            },
        };
    }
    let mut shown = [0; tucson_columns::CELLS];
    let mut line = [0; tucson_columns::CELLS];
    let Ok(l) = tucson_shown::strict_line(text, from, end, &mut shown, &mut line) else {
        return t;
    };
    take_line(
        text,
        from,
        end,
        early,
        number,
        unit,
        &shown[..l.shown],
        line,
        l.size,
        l.site,
        t,
        out,
        lines,
        notes,
    )
}

// The strict text of the lines that are kept, their numbers, and the notes of all lines from the index `at` on, as far as the buffers
// reach; and the indices behind them.
pub fn walk(
    text: &[u8],
    early: bool,
    header: usize,
    unit: u32,
    at: usize,
    out: &mut [u8],
    lines: &mut [usize],
    notes: &mut [usize],
) -> Walked
    requires { WalkAsks text.now at }
    ensures { WalkTold unit header early text.now at out.old out.new
        lines.old lines.new notes.old notes.new result }
{
    let mut turn = Turn {
        series: Series {
            ahead: Ahead {
                count: 0,
                closing: 0,
                fields: 0,
            },
            known: false,
            first: 0,
        },
        walked: Walked {
            bytes: 0,
            lines: 0,
            cells: at,
        },
    };
    let mut from = 0;
    let mut number = 1;
    // A `while`: the step is what the line's length says.
    while from < text.len() {
        let end = base_text::fields::find(text, from, text.len(), b'\n');
        turn = step(
            text, from, end, early, header, number, unit, turn, out, lines, notes,
        );
        from = end + 1;
        number += 1;
    }
    turn.walked
}
