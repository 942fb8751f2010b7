// The bytes of a line in the columns in which they are shown: its end, its trailing blanks, and its tabs as blanks in an array.
#![tactic(auto)]

ghost use Rattle.std.specs.Prelude.{◌≡◌, ◌≤◌, length, replicate};
ghost use Rattle.base_text.specs.Bytes.{Range};
ghost use Rattle.spec_tucson.specs.Columns.{blank};
ghost use Rattle.spec_tucson.specs.Shown.{tab_blanks};
ghost use Rattle.tucson_lines.specs.Machine.{LineEnd};
ghost use Rattle.tucson_columns.specs.Machine.{shown_byte, is_gap, Room, StopTold, ShownTold, LineShown, Put, ExpandAsks, Expanded};
ghost use Rattle.tucson_columns.specs.Machine.{TrimTold};

// The cells of an array that takes what is shown of a line: eight characters of four bytes in a name, and 64 columns behind that.
pub const CELLS: usize = 96;

// A tab goes on to a column that is a multiple of this.
const TAB_WIDTH: usize = 8;

// The first byte that is not ASCII.
pub const HIGH: u8 = 128;

// The index of a text up to which all is put, and how many columns there are.
#[derive(Clone, Copy)]
pub struct Columns {
    pub at: usize,
    pub count: usize,
}

// Where the bytes of the line stop that begins at the one index and ends at the other: before a byte 13 at its end.
pub fn line_stop(text: &[u8], from: usize, end: usize) -> usize
    requires { LineEnd text.now from end }
    ensures { StopTold text.now from end result }
{
    if from == end {
        return end;
    }
    if text[end - 1] == b'\r' {
        return end - 1;
    }
    end
}

// Whether a byte is a blank or a tab.
pub fn is_gap(byte: u8) -> bool
    ensures { result ≡ is_gap byte }
{
    if byte == b' ' {
        return true;
    }
    byte == b'\t'
}

// Where the part ends without trailing blanks and tabs.
pub fn shown_end(text: &[u8], from: usize, to: usize) -> usize
    requires { Range text.now from to }
    ensures { ShownTold text.now from to result }
{
    for i in (from..to).rev() {
        if !is_gap(text[i]) {
            return i + 1;
        }
    }
    from
}

// Where the part of the line ends that is shown.
pub fn shown_to(text: &[u8], from: usize, end: usize) -> usize
    requires { LineEnd text.now from end }
    ensures { LineShown text.now from end result }
{
    let stop = line_stop(text, from, end);
    shown_end(text, from, stop)
}

// The blanks of a tab behind n columns.
fn put_blanks(bytes: &mut [u8], n: usize) -> usize
    requires { Room bytes.old n }
    ensures { Put n bytes.old (replicate (tab_blanks n) blank) bytes.new result }
{
    let next = n + (TAB_WIDTH - n % TAB_WIDTH);
    bytes[n..next].fill(b' ');
    next
}

// One byte behind n columns.
fn put_byte(bytes: &mut [u8], n: usize, byte: u8) -> usize
    requires { Room bytes.old n }
    ensures { Put n bytes.old (shown_byte n byte) bytes.new result }
{
    if byte == b'\t' {
        return put_blanks(bytes, n);
    }
    bytes[n] = byte;
    n + 1
}

// The part behind so many columns, as far as the limit.
pub fn expand(
    text: &[u8],
    from: usize,
    to: usize,
    count: usize,
    limit: usize,
    bytes: &mut [u8],
) -> Columns
    requires { ExpandAsks text.now from to count limit bytes.old }
    ensures { Expanded text.now from to count limit bytes.old bytes.new result.at result.count }
{
    let mut n = count;
    for i in from..to {
        if n == limit {
            return Columns { at: i, count: n };
        }
        n = put_byte(bytes, n, text[i]);
    }
    Columns { at: to, count: n }
}

// How many of the first n bytes are left without trailing blanks.
pub fn trim_blanks(bytes: &[u8], n: usize) -> usize
    requires { n ≤ length bytes.now }
    ensures { TrimTold bytes.now n result }
{
    for i in (0..n).rev() {
        if bytes[i] != b' ' {
            return i + 1;
        }
    }
    0
}
