// A line of a laboratory's file as it is shown, and the strict line that it is.
#![tactic(auto)]

ghost use Rattle.std.specs.Prelude.{◌≡◌, ◌+◌, ◌-◌, ◌<◌, length, take};
ghost use Rattle.std.proofs.Math.Seq.{slice};
ghost use Rattle.base_text.specs.Bytes.{Range};
ghost use Rattle.spec_tucson.specs.Shown.{expanded, any_tab, shown, is_blank_line, has_return, has_tab, has_trailing};
ghost use Rattle.spec_tucson.specs.KeptLines.{is_header_line};
ghost use Rattle.tucson_lines.specs.Machine.{LineEnd};
ghost use Rattle.tucson_columns.specs.Machine.{cells};
ghost use Rattle.tucson_shown.specs.Machine.{StrictTold, CopyAsks, PlainAsks, PlainTold, ShowAsks, FrontTold, FitAsks, StrictAsks};

use base_outcome::{codes, limits};

// The strict line of a raw line: how many bytes are shown of it, how many it has, and whether a site name was taken off.
#[derive(Clone, Copy)]
pub struct StrictLine {
    pub shown: usize,
    pub size: usize,
    pub site: bool,
}

// What is shown of a line without a site name: how many bytes, and whether a site name was taken off.
#[derive(Clone, Copy)]
struct Front {
    count: usize,
    site: bool,
}

// Whether nothing is shown of the line from the one index up to the other.
pub fn is_blank_line(text: &[u8], from: usize, end: usize) -> bool
    requires { LineEnd text.now from end }
    ensures { result ≡ is_blank_line (slice from (end + 1) text.now) }
{
    tucson_columns::shown_to(text, from, end) == from
}

pub fn has_return(text: &[u8], from: usize, end: usize) -> bool
    requires { LineEnd text.now from end }
    ensures { result ≡ has_return (slice from (end + 1) text.now) }
{
    tucson_columns::line_stop(text, from, end) < end
}

// Whether the part has a tab. All its bytes are looked at, since many at once take fewer instructions than one after another.
fn any_tab(text: &[u8], from: usize, to: usize) -> bool
    requires { Range text.now from to }
    ensures { result ≡ any_tab (slice from to text.now) }
{
    let mut any = false;
    for byte in &text[from..to] {
        any |= *byte == b'\t';
    }
    any
}

pub fn has_tab(text: &[u8], from: usize, end: usize) -> bool
    requires { LineEnd text.now from end }
    ensures { result ≡ has_tab (slice from (end + 1) text.now) }
{
    any_tab(text, from, end)
}

pub fn has_trailing(text: &[u8], from: usize, end: usize) -> bool
    requires { LineEnd text.now from end }
    ensures { result ≡ has_trailing (slice from (end + 1) text.now) }
{
    let stop = tucson_columns::line_stop(text, from, end);
    tucson_columns::shown_end(text, from, stop) < stop
}

// Whether the one line, as it is shown, is line k of a header whose first line is the other.
pub fn is_header_line(
    text: &[u8],
    first: usize,
    past: usize,
    k: u8,
    from: usize,
    end: usize,
) -> bool
    requires { LineEnd text.now first past × (LineEnd text.now from end × (k < 10)) }
    ensures { result ≡ is_header_line (shown (slice first (past + 1) text.now)) k
        (shown (slice from (end + 1) text.now)) }
{
    let mut head = [0; tucson_columns::CELLS];
    let mut bytes = [0; tucson_columns::CELLS];
    tucson_caption::header_line(text, first, past, k, from, end, &mut head, &mut bytes)
}

// The part, at the front of an array.
fn copy(text: &[u8], from: usize, to: usize, bytes: &mut [u8])
    requires { CopyAsks text.now from to bytes.old }
    ensures { take (to - from) bytes.new ≡ slice from to text.now }
{
    for i in from..to {
        bytes[i - from] = text[i];
    }
}

// The same, for an array of cells. So many bytes of the text take fewer instructions than the bytes of the part alone.
fn copy_cells(text: &[u8], from: usize, to: usize, bytes: &mut [u8])
    requires { CopyAsks text.now from to bytes.old × (length bytes.old ≡ cells) }
    ensures { take (to - from) bytes.new ≡ slice from to text.now }
{
    if text.len() - from >= tucson_columns::CELLS {
        copy(text, from, from + tucson_columns::CELLS, bytes);
        return;
    }
    copy(text, from, to, bytes);
}

// The part, at the fronts of two arrays, if it is a strict line as it stands; most are.
fn is_plain(text: &[u8], from: usize, to: usize, bytes: &mut [u8], line: &mut [u8]) -> bool
    requires { PlainAsks text.now from to bytes.old line.old }
    ensures { PlainTold (slice from to text.now) (to - from) result bytes.new line.new }
{
    let n = to - from;
    if n > limits::LINE_COLUMNS {
        return false;
    }
    copy_cells(text, from, to, bytes);
    if !tucson_strict::is_strict(bytes, n) {
        return false;
    }
    copy_cells(text, from, to, line);
    true
}

// What is shown of the part without a site name, at the front of an array, if it has room for it: its tabs as blanks.
fn show_columns(text: &[u8], from: usize, to: usize, bytes: &mut [u8]) -> Option<Front>
    requires { ShowAsks text.now from to bytes.old }
    ensures { FrontTold (expanded 0 (slice from to text.now)) result bytes.new }
{
    let front = tucson_columns::expand(text, from, to, 0, limits::LINE_COLUMNS, bytes);
    let at = front.at;
    if at == to {
        return Some(Front {
            count: front.count,
            site: false,
        });
    }
    if tucson_site::has_site(text, at, to) {
        return Some(Front {
            count: tucson_columns::trim_blanks(bytes, limits::LINE_COLUMNS),
            site: true,
        });
    }
    let whole = tucson_columns::expand(
        text,
        at,
        to,
        limits::LINE_COLUMNS,
        tucson_columns::CELLS,
        bytes,
    );
    if whole.at == to {
        return Some(Front {
            count: whole.count,
            site: false,
        });
    }
    None
}

// The same; most parts have no tab and no more bytes than a strict line, and are shown as they stand.
fn show(text: &[u8], from: usize, to: usize, bytes: &mut [u8]) -> Option<Front>
    requires { ShowAsks text.now from to bytes.old }
    ensures { FrontTold (expanded 0 (slice from to text.now)) result bytes.new }
{
    if to - from <= limits::LINE_COLUMNS {
        if !any_tab(text, from, to) {
            copy(text, from, to, bytes);
            return Some(Front {
                count: to - from,
                site: false,
            });
        }
    }
    show_columns(text, from, to, bytes)
}

// The strict line of a line of which so many bytes are shown at the front of an array, or the code of its refusal.
fn fit_line(
    text: &[u8],
    from: usize,
    end: usize,
    bytes: &[u8],
    count: usize,
    site: bool,
    line: &mut [u8],
) -> Result<StrictLine, u8>
    requires { FitAsks text.now from end bytes.now count site line.old }
    ensures { StrictTold (slice from (end + 1) text.now) result bytes.now line.new }
{
    if tucson_strict::is_strict(bytes, count) {
        tucson_masks::mask_bytes(bytes, count, line);
        return Ok(StrictLine {
            shown: count,
            size: count,
            site,
        });
    }
    if !tucson_strict::any_high(bytes, 0, count) {
        return Err(codes::TUCSON_LINE);
    }
    if has_tab(text, from, end) {
        return Err(codes::FILE_BYTES);
    }
    let n = tucson_masks::masked(bytes, count, line);
    if n == tucson_masks::NO_LINE {
        return Err(codes::FILE_BYTES);
    }
    Ok(StrictLine {
        shown: count,
        size: n,
        site,
    })
}

// The strict line of a line, in two lent arrays, or the code of its refusal.
fn strict_fields(
    text: &[u8],
    from: usize,
    end: usize,
    bytes: &mut [u8],
    line: &mut [u8],
) -> Result<StrictLine, u8>
    requires { StrictAsks text.now from end bytes.old line.old }
    ensures { StrictTold (slice from (end + 1) text.now) result bytes.new line.new }
{
    let to = tucson_columns::shown_to(text, from, end);
    if is_plain(text, from, to, bytes, line) {
        return Ok(StrictLine {
            shown: to - from,
            size: to - from,
            site: false,
        });
    }
    if let Some(front) = show(text, from, to, bytes) {
        return fit_line(text, from, end, bytes, front.count, front.site, line);
    }
    if tucson_strict::any_high(text, from, to) {
        return Err(codes::FILE_BYTES);
    }
    Err(codes::TUCSON_LINE)
}

// The strict line that the line from the one index up to the other is: what is shown of it, and what it becomes, at the fronts of two
// arrays. Or the code of its refusal: its columns, or bytes over 127.
pub fn strict_line(
    text: &[u8],
    from: usize,
    end: usize,
    bytes: &mut [u8; tucson_columns::CELLS],
    line: &mut [u8; tucson_columns::CELLS],
) -> Result<StrictLine, u8>
    requires { LineEnd text.now from end }
    ensures { StrictTold (slice from (end + 1) text.now) result bytes.new line.new }
{
    strict_fields(text, from, end, bytes, line)
}
