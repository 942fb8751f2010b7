// Counted fractions of a step that is undone: a sum with one more product, and a new coefficient.
#![tactic(auto)]

ghost use Rattle.std.specs.Prelude.{◌≡◌, cond, not, ℕ, Some};
ghost use Rattle.base_exact.specs.Rational.{ℚ, ◌+ᵠ◌, ◌*ᵠ◌};
ghost use Rattle.base_exact.specs.Order.{is_zero};
ghost use Rattle.base_fraction.specs.Machine.{FractionFits, fraction};
ghost use Rattle.base_fraction.specs.declared.Fraction.{Fraction};
ghost use Rattle.base_outcome.specs.Outcome.{answer, ◌then◌};
ghost use Rattle.build_counted.specs.Machine.{counted};
ghost use Rattle.spec_calls.specs.Recovery;
ghost use Rattle.recover_counted.specs.Machine.{TermAsks, CoefficientAsks};

use base_fraction::Fraction;

// The sum with one more product, coefficient times jump; a zero jump is passed over.
pub fn add_term(sum: Fraction, coefficient: Fraction, jump: Fraction) -> Option<Fraction>
    requires { TermAsks sum coefficient jump }
    ensures by_index { (j : ℕ) (s c q : ℚ) → sum ≡ fraction s → coefficient ≡ fraction c → jump ≡ fraction q
        → result ≡ counted (cond (not (is_zero q)) (Recovery.fitted j (c *ᵠ q) then λ p. Recovery.fitted j (s +ᵠ p)) (answer s)) }
    ensures fraction_fits { (f : Fraction) → result ≡ Some f → FractionFits f }
{
    if jump.num == 0 {
        return Some(sum);
    }
    let term = base_arithmetic::product(coefficient, jump)?;
    base_arithmetic::sum(sum, term)
}

// (coefficient - (1 - w) before) / w, with the share, the difference and the quotient counted.
pub fn undo_coefficient(w: Fraction, coefficient: Fraction, before: Fraction) -> Option<Fraction>
    requires { CoefficientAsks w coefficient before }
    ensures { (j : ℕ) (v c b : ℚ) → w ≡ fraction v → coefficient ≡ fraction c → before ≡ fraction b
        → result ≡ counted (Recovery.undone_coefficient j v c b) }
{
    let rest = build_entry::complement(w);
    let share = base_arithmetic::product(rest, before)?;
    let negated = Fraction {
        num: 0 - share.num,
        den: share.den,
    };
    let difference = base_arithmetic::sum(coefficient, negated)?;
    base_arithmetic::quotient(difference, w)
}
