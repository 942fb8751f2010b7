// The header of a laboratory's file: three lines that are guessed, or so many lines as the caller names.
#![tactic(auto)]

ghost use Rattle.std.specs.Prelude.{unwrap_or, ◌&&◌, not, ◌≡◌, ◌+◌, ◌<◌, ◌≤◌, drop};
ghost use Rattle.std.proofs.Math.Seq.{slice};
ghost use Rattle.base_outcome.specs.Machine.{reply};
ghost use Rattle.spec_tucson.specs.Line.{lines_of};
ghost use Rattle.spec_tucson.specs.Shown.{is_blank_line};
ghost use Rattle.spec_tucson.specs.KeptLines.{unblank, reads_strictly, captions, guessed_header, named_header, header_of};
ghost use Rattle.tucson_lines.specs.Machine.{LineEnd};
ghost use Rattle.tucson_header.specs.Machine.{NumberFits, LineTold, CaptionAsks, StrictAsks, StrictFound};

use base_outcome::{Refusal, codes};

// A line that is not blank, from the one index up to the other, and its number.
#[derive(Clone, Copy)]
pub struct Line {
    pub from: usize,
    pub end: usize,
    pub number: usize,
}

// The most lines of a header that can be named: `header_limit` of spec_tucson.
pub const HEADER_LIMIT: u32 = 99;

// Whether the line from the one index up to the other can be read as a strict line.
fn reads_strictly(body: &[u8], from: usize, end: usize) -> bool
    requires { LineEnd body.now from end }
    ensures { result ≡ reads_strictly (slice from (end + 1) body.now) }
{
    let mut shown = [0; tucson_columns::CELLS];
    let mut line = [0; tucson_columns::CELLS];
    tucson_shown::strict_line(body, from, end, &mut shown, &mut line).is_ok()
}

// The first line from the index on that is not blank, if there is one; the line there has this number.
fn next_line(body: &[u8], start: usize, first: usize) -> Option<Line>
    requires { NumberFits body.now start first }
    ensures { LineTold body.now start first result }
{
    let mut from = start;
    let mut number = first;
    // A `while`: each turn goes on behind the end of a line.
    while from < body.len() {
        let end = base_text::fields::find(body, from, body.len(), b'\n');
        if !tucson_shown::is_blank_line(body, from, end) {
            return Some(Line { from, end, number });
        }
        from = end + 1;
        number += 1;
    }
    None
}

// Whether the one line is line k of a header whose first line is the other, and can't be read as a strict line.
fn is_caption(body: &[u8], first: usize, past: usize, k: u8, from: usize, end: usize) -> bool
    requires { CaptionAsks body.now first past k from end }
    ensures { result ≡ captions (slice first (past + 1) body.now) k (slice from (end + 1) body.now) }
{
    if tucson_shown::is_header_line(body, first, past, k, from, end) {
        return !reads_strictly(body, from, end);
    }
    false
}

// The number of the last line of a header that nobody named, if there is one.
fn guessed(body: &[u8]) -> Option<usize>
    ensures { unwrap_or result 0 ≡ guessed_header (unblank 1 (lines_of body.now)) }
{
    let a = next_line(body, 0, 1)?;
    let b = next_line(body, a.end + 1, a.number + 1)?;
    let c = next_line(body, b.end + 1, b.number + 1)?;
    let d = next_line(body, c.end + 1, c.number + 1)?;
    if !is_caption(body, a.from, a.end, 1, a.from, a.end) {
        return None;
    }
    if !is_caption(body, a.from, a.end, 2, b.from, b.end) {
        return None;
    }
    if !is_caption(body, a.from, a.end, 3, c.from, c.end) {
        return None;
    }
    Some(c.number)
}

// The line that was found, or this one where it can be read as a strict line; 0 for none.
fn strict_found(body: &[u8], from: usize, end: usize, number: usize, found: usize) -> usize
    requires { StrictAsks body.now from end number }
    ensures { StrictFound (slice from (end + 1) body.now) number found result }
{
    if found != 0 {
        return found;
    }
    if tucson_shown::is_blank_line(body, from, end) {
        return 0;
    }
    if reads_strictly(body, from, end) {
        return number;
    }
    0
}

// The header that the caller names by its count of lines.
fn named(body: &[u8], h: usize) -> Result<usize, Refusal>
    ensures { reply result ≡ named_header h (lines_of body.now) }
{
    let mut from = 0;
    let mut found = 0;
    for done in 0..h {
        if body.len() <= from {
            return Err(Refusal {
                code: codes::FILE_HEADER,
                place: 0,
            });
        }
        let end = base_text::fields::find(body, from, body.len(), b'\n');
        found = strict_found(body, from, end, done + 1, found);
        from = end + 1;
    }
    if found != 0 {
        return Err(Refusal {
            code: codes::FILE_HEADER,
            place: base_outcome::place(found),
        });
    }
    Ok(h)
}

// The number of the header's last line, 0 where there is none; or the refusal of what the caller names.
pub fn header(body: &[u8], named_lines: u32) -> Result<usize, Refusal>
    ensures { reply result ≡ header_of named_lines (lines_of body.now) }
{
    if named_lines <= HEADER_LIMIT {
        return named(body, named_lines as usize);
    }
    Ok(guessed(body).unwrap_or(0))
}
