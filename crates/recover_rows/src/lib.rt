// The new coefficients of the rows of a step that is undone.
#![tactic(auto)]

ghost use Rattle.std.specs.Prelude.{◌≡◌, List, ◌++◌, ℕ, ◌-◌, ◌≤◌, length, take, drop};
ghost use Rattle.base_exact.specs.Rational.{ℚ};
ghost use Rattle.base_outcome.specs.Outcome.{with_answer};
ghost use Rattle.base_fraction.specs.Fractions.{fractions};
ghost use Rattle.build_counted.specs.Machine.{counted};
ghost use Rattle.spec_calls.specs.Recovery;
ghost use Rattle.recover_rows.specs.Machine.{undone_of, RowAsks, RowsAsk};

use base_fraction::arrays::Fractions;
use base_fraction::{Fraction, arrays};

// The new coefficient of row i, where the rows f to i - 1 have their new coefficients.
fn undo_row(cs: Fractions, ws: Fractions, f: usize, i: usize) -> Option<Fraction>
    requires { RowAsks cs ws f i }
    ensures { (j : ℕ) (us ps : List ℚ) → ws ≡ fractions us → cs ≡ fractions ps
        → result ≡ counted (Recovery.undone_row j us ps f (i - f) (drop f ps)) }
{
    let coefficient = arrays::fraction_at(&cs.num, &cs.den, i);
    if i == f {
        return Some(coefficient);
    }
    let factor = arrays::fraction_at(&ws.num, &ws.den, i - f);
    let before = arrays::fraction_at(&cs.num, &cs.den, i - 1);
    recover_counted::undo_coefficient(factor, coefficient, before)
}

// The new coefficients of the rows f to l - 1, rows rising, if no fraction is too large; the others as they were.
pub fn undo_rows(cs: Fractions, ws: Fractions, f: usize, l: usize) -> Option<Fractions>
    requires { RowsAsk cs ws f l }
    ensures { (j : ℕ) (us ps : List ℚ) → ws ≡ fractions us → cs ≡ fractions ps → l ≤ length ps
        → result ≡ undone_of (with_answer (λ ds. take f ps ++ (ds ++ drop l ps)) (Recovery.undone_rows j us ps f (l - f))) }
{
    let mut now = cs;
    for i in f..l {
        let q = undo_row(now, ws, f, i)?;
        now.num[i] = q.num;
        now.den[i] = q.den;
    }
    Some(now)
}
