// The jumps of a step: one for each row.
#![tactic(auto)]

ghost use Rattle.std.specs.Prelude.{◌≡◌, ℕ, ◌≤◌, length};
ghost use Rattle.spec_spline.specs.Space.{Space};
ghost use Rattle.spec_spline.specs.Conditions;
ghost use Rattle.spec_spline.specs.Table.{Table, row, row_cells};
ghost use Rattle.spec_spline.specs.Step;
ghost use Rattle.build_cells.specs.Held.{Holds};
ghost use Rattle.build_conditions.specs.Sides.{JoinIs, JoinFits};
ghost use Rattle.build_counted.specs.Machine.{counted};
ghost use Rattle.build_jumps.specs.Jump.{JumpAsks};
ghost use Rattle.build_jumps.specs.Machine.{row_jumps};

use base_fraction::arrays::Fractions;
use base_fraction::{Fraction, arrays};
use build_conditions::Join;

// The jump of one row, by the entries of the column of conditions.
fn jump(
    num: &[i64],
    den: &[i64],
    at: usize,
    join: Join,
    k: usize,
    entries: [i64; 6],
) -> Option<Fraction>
    requires { JumpAsks num.now den.now at join k entries }
    ensures { (s : Space) (j : ℕ) (t : Table) → JoinIs join s j → Holds num.now den.now t
        → result ≡ counted (Step.jump j (Conditions.conditions s j k) (row t at)) }
{
    let mut sum = Fraction { num: 0, den: 1 };
    for e in 0..2 * k + 2 {
        let c = build_conditions::column(join, k, e);
        let cell = build_cells::ROW_CELLS * at + c;
        let weight = build_cells::read(num, den, cell);
        let condition = entries[e];
        sum = build_counted::add_product(sum, weight, condition)?;
    }
    Some(sum)
}

// The jumps of the first `rows` rows, rows rising, if no counted fraction is too large.
pub fn jumps(num: &[i64], den: &[i64], rows: usize, join: Join, k: usize) -> Option<Fractions>
    requires rows_le_row_cells { (rows ≤ row_cells) × JoinFits join k }
    requires holds { (t : Table) × Holds num.now den.now t }
    ensures { (s : Space) (j : ℕ) (t : Table) → JoinIs join s j → Holds num.now den.now t → length t ≡ rows
        → result ≡ row_jumps (Step.jumps j (Conditions.conditions s j k) t) }
{
    let entries = build_conditions::entries(join, k);
    let mut js = arrays::no_fractions();
    for i in 0..rows {
        let q = jump(num, den, i, join, k, entries)?;
        js.num[i] = q.num;
        js.den[i] = q.den;
    }
    Some(js)
}
