// The new rows of a step, made in place one after the other.
#![tactic(auto)]

ghost use Rattle.std.specs.Prelude.{◌≡◌, ℕ, suc, ◌+◌, ◌<◌, ◌≤◌, pos, length, set, take, drop, List, ◌++◌};
ghost use Rattle.base_exact.specs.Rational.{ℚ, int, ◌-ᵠ◌};
ghost use Rattle.base_fraction.specs.Machine.{FractionFits, value};
ghost use Rattle.base_outcome.specs.Outcome.{with_answer};
ghost use Rattle.spec_spline.specs.Table.{Table, row, row_cells};
ghost use Rattle.spec_spline.specs.Step;
ghost use Rattle.build_cells.specs.Held.{Holds, Shaped, Held};
ghost use Rattle.build_cells.specs.Left.{LeavesIf};
ghost use Rattle.base_fraction.specs.Fractions.{fractions};
ghost use Rattle.build_rows.specs.Rows.{UnitFactors};

use base_fraction::arrays::Fractions;
use base_fraction::{Fraction, arrays};

// Row i becomes w times itself plus u times the next row; None where a counted fraction is too large.
fn mix_row(
    num: &mut [i64],
    den: &mut [i64],
    i: usize,
    w: Fraction,
    u: Fraction,
    columns: usize,
) -> Option<()>
    requires fraction_fits { FractionFits w × (FractionFits u × ((i + 1 < row_cells) × (columns ≤ row_cells))) }
    requires holds { (t : Table) × Holds num.old den.old t }
    ensures { (t : Table) (j : ℕ) (v : ℚ) → Holds num.old den.old t → value u ≡ int (pos 1) -ᵠ v
        → i < length t → length (row t i) ≡ columns
        → LeavesIf (with_answer (set t i) (Step.new_row j (value w) v (row t i) (row t (suc i)))) result num.old den.old
        num.new den.new }
{
    for c in 0..columns {
        let at = build_cells::ROW_CELLS * i + c;
        let below = at + build_cells::ROW_CELLS;
        let x = build_cells::read(num, den, at);
        let y = build_cells::read(num, den, below);
        let Some(q) = build_entry::new_entry(w, u, x, y) else {
            return None;
        };
        num[at] = q.num;
        den[at] = q.den;
    }
    Some(())
}

// The rows f to l - 1 made new, rows rising; None where a counted fraction is too large.
pub fn mix_rows(
    num: &mut [i64],
    den: &mut [i64],
    ws: Fractions,
    f: usize,
    l: usize,
    rows: usize,
    columns: usize,
) -> Option<()>
    requires f_le_l { (f ≤ l) × ((l < rows) × Held num.old den.old rows columns) }
    requires unit_factors { UnitFactors ws }
    ensures { (t : Table) (j : ℕ) (qs : List ℚ) → Holds num.old den.old t → Shaped t rows columns
        → ws ≡ fractions qs
        → LeavesIf (with_answer (λ rs. take f t ++ (rs ++ drop l t)) (Step.new_rows j (record { f = f; l = l }) qs t)) result num.old
        den.old num.new den.new }
{
    for i in f..l {
        let d = i - f;
        let w = arrays::fraction_at(&ws.num, &ws.den, d);
        let v = arrays::fraction_at(&ws.num, &ws.den, d + 1);
        let u = build_entry::complement(v);
        mix_row(num, den, i, w, u, columns)?;
    }
    Some(())
}
