// Machine fractions: a numerator and a positive denominator of 64 bits each, by value. A fraction is brought to lowest terms and its
// size is tested here; base_arithmetic calculates with fractions.
#![tactic(auto)]

ghost use Rattle.std.specs.Prelude.{◌≡◌, pos, ◌<ℤ◌};
ghost use Rattle.base_fraction.specs.Size.{count};
ghost use Rattle.base_fraction.specs.Machine.{fraction, ratio, answer};

pub mod arrays;

#[derive(Clone, Copy)]
pub struct Fraction {
    pub num: i64,
    pub den: i64,
}

// The least size that is too large: `limit` of specs/Size.
const LIMIT: u64 = 2147483648;

// n over d in lowest terms.
fn lowest(n: i64, d: i64) -> Fraction
    requires { pos 0 <ℤ d }
    ensures { result ≡ fraction (ratio n d) }
{
    let g = base_division::gcd(base_division::magnitude(n), d as u64) as i64;
    Fraction {
        num: n / g,
        den: d / g,
    }
}

// n over d, counted: what every operation ends with. The fraction in lowest terms, if its parts are below the limit.
pub fn checked(n: i64, d: i64) -> Option<Fraction>
    requires { pos 0 <ℤ d }
    ensures { result ≡ answer (count (ratio n d)) }
{
    let f = lowest(n, d);
    if base_division::magnitude(f.num) >= LIMIT {
        return None;
    }
    if base_division::magnitude(f.den) >= LIMIT {
        return None;
    }
    Some(f)
}
