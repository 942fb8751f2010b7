// Whole numbers in decimal digits.
ghost use Rattle.std.specs.Prelude.{◌≡◌};
ghost use Rattle.std.proofs.Math.Seq.{slice};
ghost use Rattle.base_text.specs.Bytes.{Range};
ghost use Rattle.base_text.specs.Numeral.{all_digits, is_natural, digits_value, DigitsAsks};
ghost use Rattle.base_text.specs.Numeral;
ghost use Rattle.base_text.specs.Machine.{field};

const MOST_DIGITS: usize = 7;

const BASE: u32 = 10;

// Whether all bytes of the part are digits.
fn all_digits(text: &[u8], from: usize, to: usize) -> bool
    requires { Range text.now from to }
    ensures { result ≡ all_digits (slice from to text.now) }
{
    text[from..to].iter().all(|c| c.is_ascii_digit())
}

// 1 to 7 digits without a spare zero.
fn is_natural(text: &[u8], from: usize, to: usize) -> bool
    requires { Range text.now from to }
    ensures { result ≡ is_natural (slice from to text.now) }
{
    let n = to - from;
    if n < 1 {
        return false;
    }
    if n > MOST_DIGITS {
        return false;
    }
    if n > 1 {
        if text[from] == b'0' {
            return false;
        }
    }
    all_digits(text, from, to)
}

// The number of at most seven digits.
fn digits_value(text: &[u8], from: usize, to: usize) -> u32
    requires { DigitsAsks text.now from to }
    ensures { result ≡ digits_value 0 (slice from to text.now) }
{
    let mut v = 0;
    for c in &text[from..to] {
        v = v * BASE + (*c - b'0') as u32;
    }
    v
}

// The number that the part stands for, if it is a numeral: a minus may stand before the digits, but not before 0. It stays a call of
// its own: only so is what calls it small enough for the compiler to unroll the six columns of a Tucson field.
#[inline(never)]
pub fn numeral(text: &[u8], from: usize, to: usize) -> Option<i32>
    requires { Range text.now from to }
    ensures { result ≡ field (Numeral.numeral (slice from to text.now)) }
{
    if from == to {
        return None;
    }
    if text[from] == b'-' {
        if is_natural(text, from + 1, to) {
            let v = digits_value(text, from + 1, to);
            if v == 0 {
                return None;
            }
            return Some(0 - v as i32);
        }
        return None;
    }
    if is_natural(text, from, to) {
        return Some(digits_value(text, from, to) as i32);
    }
    None
}
