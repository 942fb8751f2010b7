// A line with ? for what is not ASCII: for each byte over 127, or for each character that is one, if the line is UTF-8.
#![tactic(auto)]

ghost use Rattle.std.specs.Prelude.{cond, ◌≡◌, leb, take};
ghost use Rattle.std.proofs.Math.Option.{some, none};
ghost use Rattle.std.proofs.Math.Seq.{slice};
ghost use Rattle.base_text.specs.Bytes.{Range};
ghost use Rattle.spec_tucson.specs.StrictLine.{bytes_masked, follow_of, characters_masked};
ghost use Rattle.tucson_columns.specs.Machine.{cells};
ghost use Rattle.tucson_masks.specs.Machine.{masked_byte, all_continue, SizeAsks, SizeTold, MaskAsks, MaskedTold};

// The last byte that may follow the first one of a character.
const LAST: u8 = 191;

// A count that no line has: its bytes are not UTF-8.
const NONE: usize = tucson_columns::CELLS + 1;

// The count of bytes where no form alone is a strict line.
pub const NO_LINE: usize = 0;

// ? for a byte that is not ASCII; any other byte as it is.
fn mask(byte: u8) -> u8
    ensures { result ≡ masked_byte byte }
{
    if byte >= tucson_columns::HIGH {
        return b'?';
    }
    byte
}

// ? for each of the first n bytes that is not ASCII, at the front of the line.
pub fn mask_bytes(bytes: &[u8], n: usize, line: &mut [u8])
    requires { MaskAsks bytes.now n line.old }
    ensures { take n line.new ≡ bytes_masked (take n bytes.now) }
{
    for i in 0..n {
        line[i] = mask(bytes[i]);
    }
}

// How many bytes follow the first one of a character; 0 where no character begins so.
fn follow_count(byte: u8) -> usize
    ensures { result ≡ (follow_of byte).count }
{
    if byte < 194 {
        return 0;
    }
    if byte < 224 {
        return 1;
    }
    if byte < 240 {
        return 2;
    }
    if byte < 245 {
        return 3;
    }
    0
}

// The least byte that may follow the first one of a character.
fn follow_low(byte: u8) -> u8
    ensures { result ≡ (follow_of byte).low }
{
    if byte < 194 {
        return 0;
    }
    if byte > 244 {
        return 0;
    }
    if byte == 224 {
        return 160;
    }
    if byte == 240 {
        return 144;
    }
    tucson_columns::HIGH
}

// The greatest.
fn follow_high(byte: u8) -> u8
    ensures { result ≡ (follow_of byte).high }
{
    if byte < 194 {
        return 0;
    }
    if byte > 244 {
        return 0;
    }
    if byte == 237 {
        return 159;
    }
    if byte == 244 {
        return 143;
    }
    LAST
}

// Whether all bytes of the part may follow others in a character.
fn all_continue(text: &[u8], from: usize, to: usize) -> bool
    requires { Range text.now from to }
    ensures { result ≡ all_continue (slice from to text.now) }
{
    text[from..to]
        .iter()
        .all(|x| *x >= tucson_columns::HIGH && *x <= LAST)
}

// How many bytes the character has that begins at the index; 0 where none does.
fn character_size(bytes: &[u8], at: usize, n: usize) -> usize
    requires { SizeAsks bytes.now at n }
    ensures { SizeTold bytes.now at n result }
{
    let byte = bytes[at];
    if byte < tucson_columns::HIGH {
        return 1;
    }
    let count = follow_count(byte);
    if count == 0 {
        return 0;
    }
    if n - at <= count {
        return 0;
    }
    if bytes[at + 1] < follow_low(byte) {
        return 0;
    }
    if bytes[at + 1] > follow_high(byte) {
        return 0;
    }
    if !all_continue(bytes, at + 2, at + 1 + count) {
        return 0;
    }
    count + 1
}

// ? for each character of the first n bytes that is not ASCII, at the front of the line: how many there are then, or NONE.
fn mask_characters(bytes: &[u8], n: usize, line: &mut [u8]) -> usize
    requires { MaskAsks bytes.now n line.old }
    ensures { characters_masked (take n bytes.now) ≡ cond (leb result cells) (some (take result line.new)) none }
{
    let mut i = 0;
    let mut count = 0;
    // A `while`: the step is the size of the character.
    while i < n {
        let size = character_size(bytes, i, n);
        if size == 0 {
            return NONE;
        }
        line[count] = mask(bytes[i]);
        count += 1;
        i += size;
    }
    count
}

// The form of the first n bytes that alone is a strict line, at the front of the line: how many bytes it has, or NO_LINE.
pub fn masked(bytes: &[u8], n: usize, line: &mut [u8]) -> usize
    requires { MaskAsks bytes.now n line.old }
    ensures { MaskedTold (take n bytes.now) result line.new }
{
    let count = mask_characters(bytes, n, line);
    let second = tucson_strict::is_strict(line, count);
    mask_bytes(bytes, n, line);
    if tucson_strict::is_strict(line, n) {
        if second {
            return NO_LINE;
        }
        return n;
    }
    if second {
        return mask_characters(bytes, n, line);
    }
    NO_LINE
}
