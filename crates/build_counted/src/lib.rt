// Counted fractions of a step: a sum with one more product.
#![tactic(auto)]

ghost use Rattle.std.specs.Prelude.{◌≡◌, ℕ};
ghost use Rattle.base_exact.specs.Rational.{int, ◌+ᵠ◌, ◌*ᵠ◌};
ghost use Rattle.base_fraction.specs.Machine.{value};
ghost use Rattle.base_outcome.specs.Outcome.{◌then◌};
ghost use Rattle.spec_spline.specs.Step;
ghost use Rattle.build_counted.specs.Machine.{counted, ProductAsks};

use base_fraction::Fraction;

// The sum with one more product, weight times condition. A product by a weight of zero is zero, and the sum stays as it is; the sum
// of zero and a product is the product: all of them were counted before.
pub fn add_product(sum: Fraction, weight: Fraction, condition: i64) -> Option<Fraction>
    requires { ProductAsks sum weight condition }
    ensures { (j : ℕ) → result ≡ counted (Step.count j (value weight *ᵠ int condition) then λ p. Step.count j (value sum +ᵠ p)) }
{
    if weight.num == 0 {
        return Some(sum);
    }
    let term = base_arithmetic::product(
        weight,
        Fraction {
            num: condition,
            den: 1,
        },
    )?;
    if sum.num == 0 {
        return Some(term);
    }
    base_arithmetic::sum(sum, term)
}
