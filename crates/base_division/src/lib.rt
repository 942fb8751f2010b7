// Whole numbers of 64 bits: the greatest common divisor, the size, and division rounded down and to the nearest.
#![tactic(auto)]

ghost use Rattle.std.specs.Prelude.{◌≡◌, ◌^◌, ◌<◌, pos, nat_abs, ◌<ℤ◌};
ghost use Rattle.base_exact.specs.Gcd;
ghost use Rattle.base_exact.specs.Floor.{floor_div, nearest};

// The greatest common divisor, by Euclid's steps.
pub fn gcd(a: u64, b: u64) -> u64
    ensures { result ≡ Gcd.gcd a b }
{
    let mut x = a;
    let mut y = b;
    // A `while`: Euclid's steps end where nothing is left, which the numbers themselves decide.
    while y > 0 {
        let t = x % y;
        x = y;
        y = t;
    }
    x
}

// The absolute value, also of the least i64.
pub fn magnitude(a: i64) -> u64
    ensures { result ≡ nat_abs a }
{
    if a < 0 { (-1 - a) as u64 + 1 } else { a as u64 }
}

// The quotient rounded towards minus infinity; towards zero it would be a / d.
fn floor_div(a: i64, d: i64) -> i64
    requires { pos 0 <ℤ d }
    ensures { result ≡ floor_div a (nat_abs d) }
{
    if a < 0 { -1 - (-1 - a) / d } else { a / d }
}

// The nearest whole number to the quotient, a half going up: one division, and no product.
pub fn round_div(a: i64, d: i64) -> i64
    requires { (nat_abs a < 2 ^ 61) × ((pos 0 <ℤ d) × (nat_abs d < 2 ^ 61)) }
    ensures { result ≡ nearest a (nat_abs d) }
{
    floor_div(a + a + d, d + d)
}
