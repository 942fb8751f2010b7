// The text of a laboratory's file: where it begins and ends, and the first byte that no text has.
#![tactic(auto)]

ghost use Rattle.std.specs.Prelude.{◌≡◌, ◌+◌, ◌<◌, ◌≤◌, length, drop};
ghost use Rattle.std.proofs.Math.Seq.{slice};
ghost use Rattle.base_outcome.specs.Machine.{found};
ghost use Rattle.base_text.specs.Bytes.{Range, index_of};
ghost use Rattle.spec_tucson.specs.FileText.{substitute, is_marked, unmarked, all_padding, is_wide, text_fault};
ghost use Rattle.spec_tucson.specs.FileText;
ghost use Rattle.tucson_file.specs.Machine.{fault_at, is_special, any_special, FaultAsks, StartIs};
ghost use Rattle.tucson_file.specs.Machine.{end_of, end_count, last_ends, EndsAsk, EndsTold};

pub const SUBSTITUTE: u8 = 26;

// The bytes of a text whose ends of lines are counted at once.
const BLOCK: usize = 240;

// The first byte of a mark.
const MARK: u8 = 239;

// Whether a byte may stand behind the first byte 26.
fn is_padding(byte: u8) -> bool
    ensures { result ≡ FileText.is_padding byte }
{
    if byte == SUBSTITUTE {
        return true;
    }
    if byte == b' ' {
        return true;
    }
    if byte == b'\t' {
        return true;
    }
    if byte == b'\n' {
        return true;
    }
    byte == b'\r'
}

// Whether all bytes from the index on are such bytes.
fn all_padding(text: &[u8], from: usize) -> bool
    requires { from ≤ length text.now }
    ensures { result ≡ all_padding (drop from text.now) }
{
    text[from..].iter().all(|byte| is_padding(*byte))
}

// Whether the byte at the index, which is not 26, is one that no text has.
fn is_odd(text: &[u8], at: usize) -> bool
    requires { at < length text.now }
    ensures { result ≡ fault_at at text.now }
{
    let byte = text[at];
    if byte == 0 {
        return true;
    }
    if base_text::fields::begins(text, at, text.len(), b"\xef\xbb\xbf") {
        return true;
    }
    if byte == b'\r' {
        return !base_text::fields::begins(text, at + 1, text.len(), b"\n");
    }
    false
}

// The same; most bytes are told by themselves alone.
fn is_fault(text: &[u8], at: usize) -> bool
    requires { at < length text.now }
    ensures { result ≡ fault_at at text.now }
{
    if text[at] > b'\r' {
        if text[at] < MARK {
            return false;
        }
    }
    is_odd(text, at)
}

// Whether a byte can be at fault, or ends a text.
fn is_special(byte: u8) -> bool
    ensures { result ≡ is_special byte }
{
    let low = tucson_lines::either(byte == 0, byte == b'\r');
    tucson_lines::either(low, tucson_lines::either(byte == SUBSTITUTE, byte >= MARK))
}

// Whether there is such a byte from the index on; most files have none. All bytes are looked at, since many at once take fewer
// instructions than one after another.
fn any_special(text: &[u8], from: usize) -> bool
    requires { from ≤ length text.now }
    ensures { result ≡ any_special (drop from text.now) }
{
    let mut any = false;
    for byte in &text[from..] {
        any = tucson_lines::either(any, is_special(*byte));
    }
    any
}

// The line of the first byte at fault from the index on.
fn fault_line(text: &[u8], from: usize) -> Option<usize>
    requires { FaultAsks from text.now }
    ensures { result ≡ found (FileText.fault_line 1 (drop from text.now)) }
{
    let mut line = 1;
    for i in from..text.len() {
        let byte = text[i];
        if byte == SUBSTITUTE {
            if all_padding(text, i + 1) {
                return None;
            }
            return Some(line);
        }
        if is_fault(text, i) {
            return Some(line);
        }
        line = line_after(byte, line);
    }
    None
}

// The line after a byte of this line.
fn line_after(byte: u8, line: usize) -> usize
    requires { line < 18446744073709551615 }
    ensures { result ≡ FileText.line_after byte line }
{
    if byte == b'\n' {
        return line + 1;
    }
    line
}

// Whether the file begins as texts of 16-bit characters do.
fn is_wide(text: &[u8]) -> bool
    ensures { result ≡ is_wide text.now }
{
    if base_text::fields::begins(text, 0, text.len(), b"\xff\xfe") {
        return true;
    }
    base_text::fields::begins(text, 0, text.len(), b"\xfe\xff")
}

// Whether the file begins with a mark.
pub fn is_marked(text: &[u8]) -> bool
    ensures { result ≡ is_marked text.now }
{
    base_text::fields::begins(text, 0, text.len(), b"\xef\xbb\xbf")
}

// The index behind a mark at the start of the file.
pub fn start(text: &[u8]) -> usize
    ensures { StartIs text.now result }
{
    if is_marked(text) {
        return 3;
    }
    0
}

// The line of code 21, if the file has a byte at fault.
pub fn fault(text: &[u8]) -> Option<usize>
    ensures { result ≡ found (text_fault text.now) }
{
    if is_wide(text) {
        return Some(1);
    }
    let from = start(text);
    if !any_special(text, from) {
        return None;
    }
    fault_line(text, from)
}

// The index where the text ends that begins at this one: at the first byte 26, or at the end.
pub fn stop(text: &[u8], from: usize) -> usize
    requires { from ≤ length text.now }
    ensures { result ≡ from + index_of substitute (slice from (length text.now) text.now) }
{
    if !any_special(text, from) {
        return text.len();
    }
    base_text::fields::find(text, from, text.len(), SUBSTITUTE)
}

// 1 for a byte that ends a line, 0 for another one.
fn is_end(byte: u8) -> u8
    ensures { result ≡ end_of byte }
{
    if byte == b'\n' {
        return 1;
    }
    0
}

// How many bytes of the part end a line. It is so short that a byte counts them: so many at once take few instructions.
fn block_ends(text: &[u8], from: usize, to: usize) -> u8
    requires { EndsAsk text.now from to }
    ensures { EndsTold text.now from to result }
{
    let mut count = 0;
    for byte in &text[from..to] {
        count += is_end(*byte);
    }
    count
}

// How many bytes of the text end a line.
pub fn ends(text: &[u8]) -> usize
    ensures value { result ≡ end_count text.now }
    ensures upper_bound { result ≤ length text.now }
{
    let mut count = 0;
    for block in text.chunks(BLOCK) {
        count += block_ends(block, 0, block.len()) as usize;
    }
    count
}

// Whether the last byte of the text ends a line, or there is none.
pub fn is_ended(text: &[u8]) -> bool
    ensures { result ≡ last_ends text.now }
{
    if text.len() == 0 {
        return true;
    }
    text[text.len() - 1] == b'\n'
}
