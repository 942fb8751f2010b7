// One line of the sheet: whether it has its key and a list of such entries, and where that list stands.
#![tactic(auto)]

ghost use Rattle.std.specs.Prelude.{◌≡◌, ◌≤◌, length, drop};
ghost use Rattle.std.proofs.Math.Seq.{slice};
ghost use Rattle.base_text.specs.Bytes.{Range};
ghost use Rattle.base_text.specs.Numeral;
ghost use Rattle.spec_sheet.specs.SheetReading;
ghost use Rattle.spec_sheet.specs.SheetReading.{list_of};
ghost use Rattle.sheet_lines.specs.Machine.{entry_of, is_some, count, LineAt};

use base_outcome::limits;

// The most entries of a list.
pub const LIST_LIMIT: usize = limits::POSITION_LIMIT;

// What the entries of a list are: numbers, or pairs earlywood:latewood.
#[derive(Clone, Copy)]
pub enum Entry {
    Numeral,
    Pair,
}

// Where a line's list begins and ends.
#[derive(Clone, Copy)]
pub struct Span {
    pub from: usize,
    pub to: usize,
}

// Whether the part of the text is a numeral.
fn is_numeral(text: &[u8], from: usize, to: usize) -> bool
    requires { Range text.now from to }
    ensures { result ≡ is_some (Numeral.numeral (slice from to text.now)) }
{
    base_text::numeral::numeral(text, from, to).is_some()
}

// Whether the part is a pair: a numeral on either side of its first colon.
fn is_pair(text: &[u8], from: usize, to: usize) -> bool
    requires { Range text.now from to }
    ensures { result ≡ is_some (SheetReading.pair (slice from to text.now)) }
{
    let colon = base_text::fields::find(text, from, to, b':');
    if colon == to {
        return false;
    }
    if !is_numeral(text, from, colon) {
        return false;
    }
    is_numeral(text, colon + 1, to)
}

// Whether the part is an entry of this kind.
fn is_entry(text: &[u8], from: usize, to: usize, kind: Entry) -> bool
    requires { Range text.now from to }
    ensures { result ≡ is_some (entry_of kind (slice from to text.now)) }
{
    match kind {
        Entry::Numeral => is_numeral(text, from, to),
        Entry::Pair => is_pair(text, from, to),
    }
}

// How many entries the list has, if it is one.
fn count_list(text: &[u8], from: usize, to: usize, kind: Entry) -> Option<usize>
    requires { Range text.now from to }
    ensures { result ≡ count (list_of (entry_of kind) (slice from to text.now)) }
{
    if from == to {
        return Some(0);
    }
    let mut start = from;
    for n in 0..LIST_LIMIT {
        let stop = base_text::fields::find(text, start, to, b',');
        if !is_entry(text, start, stop, kind) {
            return None;
        }
        if stop == to {
            return Some(n + 1);
        }
        start = stop + 1;
    }
    None
}

// Where the list of the line that begins at the index stands, if the line has this key, a list of such entries, and byte 10 at
// its end.
pub fn line(text: &[u8], from: usize, key: &[u8], kind: Entry) -> Option<Span>
    requires { from ≤ length text.now }
    ensures { LineAt (entry_of kind) text.now (SheetReading.line (entry_of kind) key.now
        (drop from text.now)) result }
{
    let end = base_text::fields::find(text, from, text.len(), b'\n');
    if end == text.len() {
        return None;
    }
    if !base_text::fields::begins(text, from, end, key) {
        return None;
    }
    let start = from + key.len();
    count_list(text, start, end, kind)?;
    Some(Span {
        from: start,
        to: end,
    })
}
