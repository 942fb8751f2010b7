// The zero test of a step that is undone: the rows' coefficients times their jumps sum to zero.
#![tactic(auto)]

ghost use Rattle.std.specs.Prelude.{◌≡◌, List, ℕ, ◌≤◌, length};
ghost use Rattle.base_exact.specs.Rational.{ℚ};
ghost use Rattle.spec_spline.specs.Table.{row_cells};
ghost use Rattle.base_fraction.specs.Fractions.{fractions};
ghost use Rattle.spec_calls.specs.Recovery;
ghost use Rattle.recover_balance.specs.Machine.{balance_of};
ghost use Rattle.recover_counted.specs.Machine.{FractionsFit};

use base_fraction::arrays::Fractions;
use base_fraction::{Fraction, arrays};
use base_outcome::codes;

// The sum of the rows' coefficients times their jumps, rows rising, which must be zero; otherwise the refusal's code.
pub fn balanced(js: Fractions, cs: Fractions, rows: usize) -> Result<(), u8>
    requires { (rows ≤ row_cells) × (FractionsFit js rows × FractionsFit cs rows) }
    ensures { (j : ℕ) (qs ps : List ℚ) → js ≡ fractions qs → cs ≡ fractions ps → length qs ≡ rows
        → result ≡ balance_of (Recovery.balanced j qs ps) }
{
    let mut sum = Fraction { num: 0, den: 1 };
    for i in 0..rows {
        let coefficient = arrays::fraction_at(&cs.num, &cs.den, i);
        let jump = arrays::fraction_at(&js.num, &js.den, i);
        sum = recover_counted::add_term(sum, coefficient, jump).ok_or(codes::TOO_LARGE_TO_UNDO)?;
    }
    if sum.num == 0 {
        return Ok(());
    }
    Err(codes::NO_COEFFICIENTS)
}
