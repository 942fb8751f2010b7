// Printing into a lent buffer: bytes, digits and the line of a refusal. Each function writes its text from an index on, as far as the
// buffer reaches, and answers the index after it. The limits on the index keep every sum from overflowing. Sheets and Tucson files
// print with it.
#![tactic(auto)]

ghost use Rattle.std.specs.Prelude.{◌≡◌, [], ◌∷◌, ◌^◌, ◌<◌, ◌≤◌, length};
ghost use Rattle.base_text.specs.Numeral.{digits, decimal};
ghost use Rattle.base_print.specs.Buffer.{Puts, Prints};
ghost use Rattle.base_print.specs.Refusal.{refusal_line, refusal_line_limit};

// One byte.
pub fn put(out: &mut [u8], at: usize, byte: u8) -> usize
    requires { at < 18446744073709551615 }
    ensures { Puts 1 at (byte ∷ []) out.old out.new result }
{
    if at < out.len() {
        out[at] = byte;
    }
    at + 1
}

// A key.
pub fn put_text(out: &mut [u8], at: usize, text: &[u8]) -> usize
    requires { at ≤ 2 ^ 63 }
    ensures { Puts (length text.now) at text.now out.old out.new result }
{
    let mut next = at;
    for byte in text {
        next = put(out, next, *byte);
    }
    next
}

// How many decimal digits a number has.
pub fn digit_count(n: u64) -> usize
    ensures value { result ≡ length (digits n) }
    ensures upper_bound { result ≤ 20 }
{
    let mut count = 1;
    let mut rest = n;
    // A `while`: each turn divides a digit away, and how many there are is what is counted.
    while rest >= 10 {
        count += 1;
        rest = rest / 10;
    }
    count
}

// The digits of a number, from the last to the first.
pub fn put_digits(out: &mut [u8], at: usize, n: u64) -> usize
    requires { at ≤ 2 ^ 63 }
    ensures { Puts 20 at (digits n) out.old out.new result }
{
    let count = digit_count(n);
    let mut rest = n;
    let mut i = count;
    // A `while`: the digits are divided away from the last one on.
    while i > 0 {
        i -= 1;
        put(out, at + i, 48 + (rest % 10) as u8);
        rest = rest / 10;
    }
    at + count
}

// A signed number.
pub fn put_decimal(out: &mut [u8], at: usize, z: i64) -> usize
    requires { at < 2 ^ 63 }
    ensures { Puts 21 at (decimal z) out.old out.new result }
{
    let size = base_division::magnitude(z);
    if z < 0 {
        let next = put(out, at, b'-');
        return put_digits(out, next, size);
    }
    put_digits(out, at, size)
}

// The printout of a refusal: no=number,place
pub fn refusal(code: u8, place: u32, out: &mut [u8]) -> usize
    ensures { Prints refusal_line_limit (refusal_line code place) out.old out.new result }
{
    let a = put_text(out, 0, b"no=");
    let b = put_digits(out, a, code as u64);
    let c = put(out, b, b',');
    let d = put_digits(out, c, place as u64);
    put(out, d, 10)
}
