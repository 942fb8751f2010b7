// A step of the build, and the steps of a join: one for each order from 0 up to its own.
#![tactic(auto)]

ghost use Rattle.std.specs.Prelude.{◌≡◌, List, ℕ, length};
ghost use Rattle.base_exact.specs.Rational.{ℚ};
ghost use Rattle.spec_spline.specs.Space.{Space};
ghost use Rattle.spec_spline.specs.Conditions;
ghost use Rattle.spec_spline.specs.Table.{Table};
ghost use Rattle.spec_spline.specs.Step;
ghost use Rattle.spec_spline.specs.Build;
ghost use Rattle.build_cells.specs.Held.{Holds, Shaped};
ghost use Rattle.build_conditions.specs.Sides.{JoinIs};
ghost use Rattle.base_fraction.specs.Fractions.{fractions};
ghost use Rattle.build_factors.specs.Machine.{Plans};
ghost use Rattle.build_cells.specs.Left.{LeavesIf};
ghost use Rattle.spec_spline.specs.Step.{plan_from, rows_renewed};
ghost use Rattle.build_step.specs.Asks.{PlanAsks, RenewAsks, StepAsks, StepsAsk};
ghost use Rattle.build_step.specs.Leaves.{Leaves};

use base_fraction::arrays::Fractions;
use build_conditions::Join;
use build_factors::{RowFactors, StepRefusal};

// The first half of a step, from its jumps: the rows that they span and the factors of these rows.
pub fn plan_step(js: Fractions, rows: usize) -> Result<RowFactors, StepRefusal>
    requires { PlanAsks js rows }
    ensures { (qs : List ℚ) (j : ℕ) → js ≡ fractions qs → length qs ≡ rows → Plans (plan_from j qs) result }
{
    let span = build_span::span(js, rows).ok_or(StepRefusal::Shape)?;
    build_factors::factors(js, span.f, span.l)
}

// The second half of a step with these factors of the rows f to l: the new rows and one row less; None where a counted fraction is
// too large.
pub fn renew_rows(
    num: &mut [i64],
    den: &mut [i64],
    factors: Fractions,
    f: usize,
    l: usize,
    rows: usize,
    columns: usize,
) -> Option<()>
    requires { RenewAsks num.old den.old factors f l rows columns }
    ensures { (t : Table) (j : ℕ) (ws : List ℚ) → Holds num.old den.old t → Shaped t rows columns
        → factors ≡ fractions ws
        → LeavesIf (rows_renewed j (record { f = f; l = l }) ws t) result num.old den.old num.new
        den.new }
{
    build_rows::mix_rows(num, den, factors, f, l, rows, columns)?;
    build_table::drop_row(num, den, l, rows);
    Some(())
}

// One step: the new rows and one row less, or why it is refused.
fn step(
    num: &mut [i64],
    den: &mut [i64],
    join: Join,
    k: usize,
    rows: usize,
    columns: usize,
) -> Result<(), StepRefusal>
    requires { StepAsks join k num.old den.old rows columns }
    ensures { (s : Space) (j : ℕ) (t : Table) → JoinIs join s j → Holds num.old den.old t
        → Shaped t rows columns
        → Leaves (Step.step j (Conditions.conditions s j k) t) result num.old den.old num.new
        den.new }
{
    let js = build_jumps::jumps(num, den, rows, join, k).ok_or(StepRefusal::TooLarge)?;
    let plan = plan_step(js, rows)?;
    renew_rows(num, den, plan.of, plan.f, plan.l, rows, columns).ok_or(StepRefusal::TooLarge)
}

// The orders 0 up to n - 1 at one join; `rows` is the number of rows before.
pub fn order_steps(
    num: &mut [i64],
    den: &mut [i64],
    join: Join,
    n: usize,
    rows: usize,
    columns: usize,
) -> Result<(), StepRefusal>
    requires { StepsAsk join n num.old den.old rows columns }
    ensures { (s : Space) (j : ℕ) (t : Table) → JoinIs join s j → Holds num.old den.old t
        → Shaped t rows columns
        → Leaves (Build.order_steps s j n t) result num.old den.old num.new den.new }
{
    for k in 0..n {
        step(num, den, join, k, rows - k, columns)?;
    }
    Ok(())
}
