// An entry of a new row: two entries times their factors, and the complement of a factor.
#![tactic(auto)]

ghost use Rattle.std.specs.Prelude.{◌≡◌, ℕ, pos};
ghost use Rattle.base_exact.specs.Rational.{ℚ, int, ◌-ᵠ◌};
ghost use Rattle.base_fraction.specs.Machine.{FractionFits, value};
ghost use Rattle.spec_spline.specs.Step;
ghost use Rattle.build_counted.specs.Machine.{counted};
ghost use Rattle.build_entry.specs.Factor.{UnitFactor, NewEntryAsks};

use base_fraction::Fraction;

// w x + u y, with both products and the sum counted. A product with a zero is zero, and the sum with it is the other product, which
// was counted before.
pub fn new_entry(w: Fraction, u: Fraction, x: Fraction, y: Fraction) -> Option<Fraction>
    requires { NewEntryAsks w u x y }
    ensures { (j : ℕ) (v : ℚ) → value u ≡ int (pos 1) -ᵠ v → result ≡ counted (Step.new_entry j (value w) v (value x) (value y)) }
{
    if x.num == 0 {
        if y.num == 0 {
            return Some(Fraction { num: 0, den: 1 });
        }
        return base_arithmetic::product(u, y);
    }
    if y.num == 0 {
        return base_arithmetic::product(w, x);
    }
    let first = base_arithmetic::product(w, x)?;
    let second = base_arithmetic::product(u, y)?;
    base_arithmetic::sum(first, second)
}

// The complement 1 - w of a factor from 0 to 1, which is never too large.
pub fn complement(w: Fraction) -> Fraction
    requires { UnitFactor w }
    ensures { (value result ≡ int (pos 1) -ᵠ value w) × FractionFits result }
{
    Fraction {
        num: w.den - w.num,
        den: w.den,
    }
}
