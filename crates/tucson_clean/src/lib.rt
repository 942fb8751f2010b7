// A laboratory's file brought into the strict form: all lines are tested first, then counted, and only then are the lent buffers written.
#![tactic(auto)]

ghost use Rattle.std.specs.Prelude.{◌≡◌, ◌+◌, ◌^◌, ◌<◌, ◌≤◌, length};
ghost use Rattle.base_outcome.specs.Outcome.{◌then◌};
ghost use Rattle.spec_tucson.specs.Line.{lines_of};
ghost use Rattle.spec_tucson.specs.FileText.{text_of};
ghost use Rattle.spec_tucson.specs.KeptLines.{header_of};
ghost use Rattle.spec_tucson.specs.CleanCall.{is_unit_option, cleaned_below, cleaned_file, if_room, clean_end};
ghost use Rattle.tucson_clean.specs.Machine.{TailIs, BodyAt, CountedAt, AmpleTold, PutTold, MeasureTold, FillTold, Ends, counts};

use base_outcome::{Refusal, codes};
use tucson_lines::units;
use tucson_notes::kinds;
use tucson_walk::Walked;

// How many lines a text has, and whether byte 10 ends the last one.
#[derive(Clone, Copy)]
pub struct Tail {
    pub count: usize,
    pub ended: bool,
}

// How many bytes, lines and notes there are.
#[derive(Clone, Copy)]
pub struct Counts {
    pub bytes: usize,
    pub lines: usize,
    pub notes: usize,
}

// What stands for no named header.
const NO_HEADER_NAMED: u32 = tucson_header::HEADER_LIMIT + 1;

const FILE_LIMIT: usize = 4294967295;

// The lines of a text, counted by their ends.
fn count_lines(body: &[u8]) -> Tail
    ensures { TailIs body.now result }
{
    let count = tucson_file::ends(body);
    if tucson_file::is_ended(body) {
        return Tail {
            count: count,
            ended: true,
        };
    }
    Tail {
        count: count + 1,
        ended: false,
    }
}

// The strict text, the numbers of its lines and all notes, as far as the buffers reach; and the indices behind them.
fn put_all(
    text: &[u8],
    from: usize,
    stop: usize,
    tail: Tail,
    header: usize,
    unit: u32,
    out: &mut [u8],
    lines: &mut [usize],
    notes: &mut [usize],
) -> Walked
    requires { CountedAt text.now from stop tail }
    ensures { PutTold text.now header unit out.old out.new lines.old lines.new
        notes.old notes.new result }
{
    let marked = tucson_file::is_marked(text);
    let at = tucson_notes::put_note(notes, 0, marked, kinds::MARKED, 1);
    let early = stop < text.len();
    let walked = tucson_walk::walk(
        &text[from..stop],
        early,
        header,
        unit,
        at,
        out,
        lines,
        notes,
    );
    let cut = tucson_lines::both(early, tail.ended);
    let cells = tucson_notes::put_note(notes, walked.cells, cut, kinds::CUT, tail.count + 1);
    Walked {
        bytes: walked.bytes,
        lines: walked.lines,
        cells: cells,
    }
}

// How many bytes, numbers of lines and cells of notes there are.
fn measure(text: &[u8], from: usize, stop: usize, tail: Tail, header: usize, unit: u32) -> Walked
    requires { CountedAt text.now from stop tail }
    ensures { MeasureTold text.now header unit result }
{
    let mut bytes = [0; 1];
    let mut numbers = [0; 1];
    let mut cells = [0; 1];
    put_all(
        text,
        from,
        stop,
        tail,
        header,
        unit,
        &mut bytes[..1],
        &mut numbers[..1],
        &mut cells[..1],
    )
}

// Whether buffers of these lengths are long enough for any text of so many lines.
fn is_ample(count: usize, bytes: usize, lines: usize, cells: usize) -> bool
    requires { count < 2 ^ 32 }
    ensures { AmpleTold count bytes lines cells result }
{
    if bytes < tucson_notes::BYTES_PER_LINE * (count + 1) {
        return false;
    }
    if lines < count + 1 {
        return false;
    }
    cells >= tucson_notes::CELLS_PER_LINE * (count + 1) + tucson_notes::CELLS_PER_FILE
}

// Fills the buffers, if there is room for all, which is measured first.
fn fill_measured(
    text: &[u8],
    from: usize,
    stop: usize,
    tail: Tail,
    header: usize,
    unit: u32,
    out: &mut [u8],
    lines: &mut [usize],
    notes: &mut [usize],
) -> Result<Counts, Refusal>
    requires { CountedAt text.now from stop tail }
    ensures { FillTold text.now header unit out.old out.new lines.old lines.new
        notes.old notes.new result }
{
    let need = measure(text, from, stop, tail, header, unit);
    if out.len() < need.bytes {
        return Err(Refusal {
            code: codes::SHORT_BUFFER,
            place: 0,
        });
    }
    if lines.len() < need.lines {
        return Err(Refusal {
            code: codes::SHORT_BUFFER,
            place: 1,
        });
    }
    if notes.len() < need.cells {
        return Err(Refusal {
            code: codes::SHORT_BUFFER,
            place: 2,
        });
    }
    let put = put_all(text, from, stop, tail, header, unit, out, lines, notes);
    Ok(Counts {
        bytes: put.bytes,
        lines: put.lines,
        notes: put.cells / 2,
    })
}

// Fills the buffers, if there is room for all. Nothing is measured where there is room for any text of so many lines.
fn fill(
    text: &[u8],
    from: usize,
    stop: usize,
    header: usize,
    unit: u32,
    out: &mut [u8],
    lines: &mut [usize],
    notes: &mut [usize],
) -> Result<Counts, Refusal>
    requires { BodyAt text.now from stop }
    ensures { FillTold text.now header unit out.old out.new lines.old lines.new
        notes.old notes.new result }
{
    let tail = count_lines(&text[from..stop]);
    if is_ample(tail.count, out.len(), lines.len(), notes.len()) {
        let put = put_all(text, from, stop, tail, header, unit, out, lines, notes);
        return Ok(Counts {
            bytes: put.bytes,
            lines: put.lines,
            notes: put.cells / 2,
        });
    }
    fill_measured(text, from, stop, tail, header, unit, out, lines, notes)
}

// What is made of the lines below a header that ends with the line named.
fn clean_below(
    text: &[u8],
    from: usize,
    stop: usize,
    header: usize,
    unit: u32,
    out: &mut [u8],
    lines: &mut [usize],
    notes: &mut [usize],
) -> Result<Counts, Refusal>
    requires { BodyAt text.now from stop }
    ensures { Ends (cleaned_below text.now unit header
        then if_room (length out.old) (length lines.old) (length notes.old))
        out.old out.new lines.old lines.new notes.old notes.new result }
{
    tucson_check::check(&text[from..stop], header, unit)?;
    fill(text, from, stop, header, unit, out, lines, notes)
}

// What is made of a text that has no byte at fault.
fn clean_text(
    text: &[u8],
    header: u32,
    unit: u32,
    out: &mut [u8],
    lines: &mut [usize],
    notes: &mut [usize],
) -> Result<Counts, Refusal>
    requires { length text.now < 2 ^ 32 }
    ensures { Ends ((header_of header (lines_of (text_of text.now)) then cleaned_below text.now unit)
        then if_room (length out.old) (length lines.old) (length notes.old))
        out.old out.new lines.old lines.new notes.old notes.new result }
{
    let from = tucson_file::start(text);
    let stop = tucson_file::stop(text, from);
    let last = tucson_header::header(&text[from..stop], header)?;
    clean_below(text, from, stop, last, unit, out, lines, notes)
}

// Whether a unit is not said, hundredths or thousandths.
fn is_unit(unit: u32) -> bool
    ensures { result ≡ is_unit_option unit }
{
    if unit == units::UNIT_NOT_SAID {
        return true;
    }
    if unit == units::HUNDREDTHS_SAID {
        return true;
    }
    unit == units::THOUSANDTHS_SAID
}

// What is made of a file that is not too long.
fn clean_file(
    text: &[u8],
    header: u32,
    unit: u32,
    out: &mut [u8],
    lines: &mut [usize],
    notes: &mut [usize],
) -> Result<Counts, Refusal>
    requires { length text.now < 2 ^ 32 }
    ensures { Ends (cleaned_file text.now header unit
        then if_room (length out.old) (length lines.old) (length notes.old))
        out.old out.new lines.old lines.new notes.old notes.new result }
{
    if let Some(line) = tucson_file::fault(text) {
        return Err(Refusal {
            code: codes::FILE_TEXT,
            place: base_outcome::place(line),
        });
    }
    clean_text(text, header, unit, out, lines, notes)
}

// Brings a laboratory's file into the strict form: the strict text, for each of its lines the number of that line in the file, and the
// notes, two cells each. The header is a count of lines, or 100 where none is named; the unit is 100, 1000, or 0 where none is said. The
// text and the buffers may have any length and content.
pub fn clean(
    text: &[u8],
    header: u32,
    unit: u32,
    out: &mut [u8],
    lines: &mut [usize],
    notes: &mut [usize],
) -> Result<Counts, Refusal>
    ensures { let e = clean_end text.now header unit out.old lines.old notes.old in
        (counts result ≡ e.answers) × ((out.new ≡ e.text)
        × ((lines.new ≡ e.lines) × (notes.new ≡ e.notes))) }
{
    if header > NO_HEADER_NAMED {
        return Err(Refusal {
            code: codes::FILE_HEADER,
            place: 0,
        });
    }
    if !is_unit(unit) {
        return Err(Refusal {
            code: codes::FILE_UNIT,
            place: 0,
        });
    }
    if text.len() > FILE_LIMIT {
        return Err(Refusal {
            code: codes::FILE_TEXT,
            place: base_outcome::LARGEST_PLACE,
        });
    }
    clean_file(text, header, unit, out, lines, notes)
}
