// Lines of a header: three lines with the same first columns, numbered 1 to 3, with words and no numbers behind that.
#![tactic(auto)]

ghost use Rattle.std.specs.Prelude.{not, ◌≡◌, ◌+◌, ◌≤◌, length, take, drop};
ghost use Rattle.std.proofs.Math.Seq.{slice};
ghost use Rattle.base_text.specs.Bytes.{Range};
ghost use Rattle.base_text.specs.Numeral.{is_digit};
ghost use Rattle.spec_tucson.specs.Line.{name_columns};
ghost use Rattle.spec_tucson.specs.Shown.{shown};
ghost use Rattle.spec_tucson.specs.KeptLines.{same_text, column, any_word, is_header_line};
ghost use Rattle.tucson_caption.specs.Machine.{FrontAsks, FrontTold, ColumnAsks, PairAsks, HeaderAsks, name_front, caption_by};

use base_outcome::limits;

// The columns that all lines of a header have in common.
const COMMON: usize = 6;

// The last column that is looked at by its number; a tab ends there.
const LAST: usize = 24;

// The first columns of what is shown of a line, at the front of an array: how many there are, up to 24.
fn front(text: &[u8], from: usize, end: usize, bytes: &mut [u8]) -> usize
    requires { FrontAsks text.now from end bytes.old }
    ensures { FrontTold (shown (slice from (end + 1) text.now)) result bytes.new }
{
    let to = tucson_columns::shown_to(text, from, end);
    let head = tucson_columns::expand(text, from, to, 0, LAST, bytes);
    head.count
}

// Whether the part has a letter or a byte that is not ASCII.
fn any_word(text: &[u8], from: usize, to: usize) -> bool
    requires { Range text.now from to }
    ensures { result ≡ any_word (slice from to text.now) }
{
    text[from..to].iter().any(|x| tucson_site::is_letter(*x) || *x >= tucson_columns::HIGH)
}

// Whether there is one in column 9 or later of what is shown of a line; the array is used on the way.
fn words(text: &[u8], from: usize, end: usize, bytes: &mut [u8]) -> bool
    requires { FrontAsks text.now from end bytes.old }
    ensures { result ≡ any_word (drop name_columns (shown (slice from (end + 1) text.now))) }
{
    let to = tucson_columns::shown_to(text, from, end);
    let head = tucson_columns::expand(text, from, to, 0, limits::NAME_COLUMNS, bytes);
    let at = head.at;
    any_word(text, at, to)
}

// The byte in column n of the first so many, 0 where there is none.
fn byte_in(bytes: &[u8], count: usize, n: usize) -> u8
    requires { ColumnAsks bytes.now count n }
    ensures { result ≡ column n (take count bytes.now) }
{
    if n > count {
        return 0;
    }
    bytes[n - 1]
}

// Whether there is no digit in column n.
fn no_digit(bytes: &[u8], count: usize, n: usize) -> bool
    requires { ColumnAsks bytes.now count n }
    ensures { result ≡ not (is_digit (column n (take count bytes.now))) }
{
    let byte = byte_in(bytes, count, n);
    if byte < b'0' {
        return true;
    }
    byte > b'9'
}

// At most so many columns as the lines have in common.
fn common(count: usize) -> usize
    ensures { result ≡ name_front count }
{
    if count < COMMON {
        return count;
    }
    COMMON
}

// Whether the first columns of both are the same bytes.
fn same_front(head: &[u8], past: usize, bytes: &[u8], count: usize) -> bool
    requires { PairAsks head.now past bytes.now count }
    ensures { result ≡ same_text (take 6 (take past head.now)) (take 6 (take count bytes.now)) }
{
    let key = common(past);
    let size = common(count);
    if key != size {
        return false;
    }
    base_text::fields::begins(bytes, 0, size, &head[..key])
}

// Whether the columns 9 and on are those of a header, by the first columns, and by the words in all of them.
fn is_caption(bytes: &[u8], count: usize, spoken: bool) -> bool
    requires { count ≤ length bytes.now }
    ensures { result ≡ caption_by (take count bytes.now) count spoken }
{
    if count == limits::NAME_COLUMNS {
        return true;
    }
    if byte_in(bytes, count, 9) != b' ' {
        return false;
    }
    if !spoken {
        return false;
    }
    if !no_digit(bytes, count, 12) {
        return false;
    }
    if !no_digit(bytes, count, 18) {
        return false;
    }
    no_digit(bytes, count, 24)
}

// Whether the one line, as it is shown, is line k of a header whose first line is the other; two arrays are used on the way.
pub fn header_line(
    text: &[u8],
    first: usize,
    past: usize,
    k: u8,
    from: usize,
    end: usize,
    head: &mut [u8],
    bytes: &mut [u8],
) -> bool
    requires { HeaderAsks text.now first past k from end head.old bytes.old }
    ensures { result ≡ is_header_line (shown (slice first (past + 1) text.now)) k
        (shown (slice from (end + 1) text.now)) }
{
    let known = front(text, first, past, head);
    let spoken = words(text, from, end, bytes);
    let count = front(text, from, end, bytes);
    if !same_front(head, known, bytes, count) {
        return false;
    }
    if byte_in(bytes, count, 7) != b' ' {
        return false;
    }
    if byte_in(bytes, count, 8) != b'0' + k {
        return false;
    }
    is_caption(bytes, count, spoken)
}
