// Arithmetic of machine fractions: product, sum and quotient, counted, and the two tests of a factor.
// Operands have parts below 2^31 and need not be in lowest terms; every answer is in lowest terms.
#![tactic(auto)]

ghost use Rattle.std.specs.Prelude.{◌≡◌, pos, ◌<ℤ◌};
ghost use Rattle.base_exact.specs.Rational.{int, ◌+ᵠ◌, ◌*ᵠ◌, ◌/ᵠ◌};
ghost use Rattle.base_exact.specs.Order.{ltᵠ};
ghost use Rattle.base_fraction.specs.Size.{count};
ghost use Rattle.base_fraction.specs.Machine.{value, answer};
ghost use Rattle.base_arithmetic.specs.Operands.{OperandsFit, QuotientAsks};

use base_fraction::Fraction;

pub fn product(a: Fraction, b: Fraction) -> Option<Fraction>
    requires { OperandsFit a b }
    ensures { result ≡ answer (count (value a *ᵠ value b)) }
{
    base_fraction::checked(a.num * b.num, a.den * b.den)
}

pub fn sum(a: Fraction, b: Fraction) -> Option<Fraction>
    requires { OperandsFit a b }
    ensures { result ≡ answer (count (value a +ᵠ value b)) }
{
    base_fraction::checked(a.num * b.den + b.num * a.den, a.den * b.den)
}

// Crosswise products; the signs are turned where the new denominator is below zero.
pub fn quotient(a: Fraction, b: Fraction) -> Option<Fraction>
    requires { QuotientAsks a b }
    ensures { result ≡ answer (count (value a /ᵠ value b)) }
{
    let n = a.num * b.den;
    let d = a.den * b.num;
    if d < 0 {
        return base_fraction::checked(0 - n, 0 - d);
    }
    base_fraction::checked(n, d)
}

pub fn is_positive(a: Fraction) -> bool
    requires { pos 0 <ℤ a.den }
    ensures { result ≡ ltᵠ (int (pos 0)) (value a) }
{
    a.num > 0
}

pub fn is_below_one(a: Fraction) -> bool
    requires { pos 0 <ℤ a.den }
    ensures { result ≡ ltᵠ (value a) (int (pos 1)) }
{
    a.num < a.den
}
