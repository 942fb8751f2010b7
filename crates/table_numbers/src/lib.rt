// The numbers of the table of indices (§ 17): how many bytes each has, and each put into a buffer that has room for it. A function
// that puts answers the index after its text.
#![tactic(auto)]

ghost use Rattle.std.specs.Prelude.{◌≡◌, [], ◌∷◌, ◌++◌, ◌+◌, ◌<◌, ◌≤◌, length};
ghost use Rattle.base_text.specs.Numeral.{digits, decimal};
ghost use Rattle.spec_table.specs.Decimals.{point, last_digits, sign, with_decimals};
ghost use Rattle.spec_table.specs.Decimals as Decimals;
ghost use Rattle.tucson_putting.specs.Putting.{Wrote};

// Thousandths in a whole, and their digits.
const THOUSAND: u64 = 1000;

const THOUSAND_PLACES: usize = 3;

// Millionths in a whole, and their digits.
const MILLION: u64 = 1000000;

const MILLION_PLACES: usize = 6;

// A value is 125/32 millionths of a millimetre: a 256th of a thousandth.
const VALUE_NUMERATOR: i64 = 125;

const VALUE_DENOMINATOR: i64 = 32;

// The millionths of a millimetre nearest to a value.
pub fn millionths(value: i32) -> i64
    ensures { result ≡ Decimals.millionths value }
{
    base_division::round_div(value as i64 * VALUE_NUMERATOR, VALUE_DENOMINATOR)
}

// How many decimal digits a number has: up to four by comparisons, since most numbers of the table have no more.
fn digit_count(n: u64) -> usize
    ensures value { result ≡ length (digits n) }
    ensures upper_bound { result ≤ 20 }
{
    if n < 10 {
        return 1;
    }
    if n < 100 {
        return 2;
    }
    if n < 1000 {
        return 3;
    }
    if n < 10000 {
        return 4;
    }
    base_print::digit_count(n)
}

// How many bytes a number's sign has.
fn sign_size(z: i64) -> usize
    ensures value { result ≡ length (sign z) }
    ensures upper_bound { result ≤ 1 }
{
    if z < 0 {
        return 1;
    }
    0
}

// How many bytes a whole number has.
pub fn whole_size(z: i64) -> usize
    ensures value { result ≡ length (decimal z) }
    ensures upper_bound { result ≤ 21 }
{
    let signs = sign_size(z);
    let size = base_division::magnitude(z);
    signs + digit_count(size)
}

// How many bytes a number of thousandths has.
pub fn thousandths_size(z: i64) -> usize
    ensures value { result ≡ length (with_decimals 3 z) }
    ensures upper_bound { result ≤ 25 }
{
    let signs = sign_size(z);
    let size = base_division::magnitude(z);
    signs + digit_count(size / THOUSAND) + THOUSAND_PLACES + 1
}

// How many bytes a number of millionths has.
pub fn millionths_size(z: i64) -> usize
    ensures value { result ≡ length (with_decimals 6 z) }
    ensures upper_bound { result ≤ 28 }
{
    let signs = sign_size(z);
    let size = base_division::magnitude(z);
    signs + digit_count(size / MILLION) + MILLION_PLACES + 1
}

// One byte.
pub fn put_byte(out: &mut [u8], at: usize, byte: u8) -> usize
    requires { at < length out.old }
    ensures { Wrote at (byte ∷ []) out.old out.new result }
{
    out[at] = byte;
    at + 1
}

// So many of a number's last digits, from the last to the first.
fn put_last_digits(out: &mut [u8], at: usize, n: u64, count: usize) -> usize
    requires { at + count ≤ length out.old }
    ensures { Wrote at (last_digits count n) out.old out.new result }
{
    let mut rest = n;
    for i in (0..count).rev() {
        out[at + i] = 48 + (rest % 10) as u8;
        rest = rest / 10;
    }
    at + count
}

// The digits of a number.
fn put_digits(out: &mut [u8], at: usize, n: u64) -> usize
    requires { at + length (digits n) ≤ length out.old }
    ensures { Wrote at (digits n) out.old out.new result }
{
    let count = digit_count(n);
    put_last_digits(out, at, n, count)
}

// A minus where the number is below zero.
fn put_sign(out: &mut [u8], at: usize, z: i64) -> usize
    requires { at + length (sign z) ≤ length out.old }
    ensures { Wrote at (sign z) out.old out.new result }
{
    if z < 0 {
        out[at] = b'-';
        return at + 1;
    }
    at
}

// The wholes, the point, and so many of the last digits of the parts.
fn put_point(out: &mut [u8], at: usize, wholes: u64, parts: u64, places: usize) -> usize
    requires { at + (length (digits wholes) + 1 + places) ≤ length out.old }
    ensures { Wrote at (digits wholes ++ (point ∷ last_digits places parts)) out.old out.new result }
{
    let a = put_digits(out, at, wholes);
    let b = put_byte(out, a, b'.');
    put_last_digits(out, b, parts, places)
}

// A whole number.
pub fn put_whole(out: &mut [u8], at: usize, z: i64) -> usize
    requires { at + length (decimal z) ≤ length out.old }
    ensures { Wrote at (decimal z) out.old out.new result }
{
    let size = base_division::magnitude(z);
    let a = put_sign(out, at, z);
    put_digits(out, a, size)
}

// A number of thousandths, in wholes with three decimals.
pub fn put_thousandths(out: &mut [u8], at: usize, z: i64) -> usize
    requires { at + length (with_decimals 3 z) ≤ length out.old }
    ensures { Wrote at (with_decimals 3 z) out.old out.new result }
{
    let size = base_division::magnitude(z);
    let a = put_sign(out, at, z);
    put_point(out, a, size / THOUSAND, size, THOUSAND_PLACES)
}

// A number of millionths, in wholes with six decimals.
pub fn put_millionths(out: &mut [u8], at: usize, z: i64) -> usize
    requires { at + length (with_decimals 6 z) ≤ length out.old }
    ensures { Wrote at (with_decimals 6 z) out.old out.new result }
{
    let size = base_division::magnitude(z);
    let a = put_sign(out, at, z);
    put_point(out, a, size / MILLION, size, MILLION_PLACES)
}
