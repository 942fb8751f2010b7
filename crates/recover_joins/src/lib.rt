// The steps of the build, each followed by its undoing on the present coefficients of the rows.
#![tactic(auto)]

ghost use Rattle.std.specs.Prelude.{◌≡◌, List, ℕ, length};
ghost use Rattle.base_exact.specs.Rational.{ℚ};
ghost use Rattle.base_fraction.specs.Fractions.{fractions};
ghost use Rattle.spec_spline.specs.Space.{Space, row_count};
ghost use Rattle.spec_spline.specs.Conditions;
ghost use Rattle.spec_spline.specs.Table.{Table};
ghost use Rattle.build_space.specs.Machine.{space};
ghost use Rattle.build_cells.specs.Held.{Holds, Shaped};
ghost use Rattle.build_conditions.specs.Sides.{JoinIs};
ghost use Rattle.build_factors.specs.Jumps.{AllFit};
ghost use Rattle.spec_calls.specs.Recovery;
ghost use Rattle.recover_joins.specs.Leaves.{coefficients_of, grown_combination, Leaves, JoinsLeave};
ghost use Rattle.spec_calls.specs.Recovery.{undoing};
ghost use Rattle.recover_joins.specs.Asks.{UndoAsks, StepAsks, OrdersAsk, JoinAsks, JoinsAsk, PartAsks};

use base_fraction::arrays;
use base_fraction::arrays::Fractions;
use base_outcome::{Refusal, codes};
use build_conditions::Join;

// The count of a part's rows, and the coefficients of the rows.
#[derive(Clone, Copy)]
pub struct Joined {
    pub rows: usize,
    pub of: Fractions,
}

// The coefficients after a step with these jumps and these factors of the rows f to l, which the jumps span.
fn undo(
    js: Fractions,
    ws: Fractions,
    f: usize,
    l: usize,
    cs: Fractions,
    rows: usize,
) -> Result<Fractions, u8>
    requires { UndoAsks js ws f l cs rows }
    ensures { (j : ℕ) (qs us ps : List ℚ) → js ≡ fractions qs → ws ≡ fractions us → cs ≡ fractions ps → length qs ≡ rows
        → length ps ≡ rows
        → result ≡ coefficients_of (undoing j (record { jumps = qs; span = record { f = f; l = l }; factors = us }) ps) }
{
    recover_balance::balanced(js, cs, rows)?;
    let undone = recover_rows::undo_rows(cs, ws, f, l).ok_or(codes::TOO_LARGE_TO_UNDO)?;
    Ok(recover_arrays::drop_coefficient(undone, l, rows))
}

// One step of the build and its undoing: the coefficients of the rows that are left, or the code of the refusal.
fn recover_step(
    num: &mut [i64],
    den: &mut [i64],
    join: Join,
    k: usize,
    rows: usize,
    columns: usize,
    cs: Fractions,
) -> Result<Fractions, u8>
    requires { StepAsks join k num.old den.old rows columns cs }
    ensures { (s : Space) (j : ℕ) (t : Table) (ps : List ℚ) → JoinIs join s j → Holds num.old den.old t
        → Shaped t rows columns → cs ≡ fractions ps → length ps ≡ rows
        → Leaves (Recovery.recover_step j (Conditions.conditions s j k) (record { table = t; coefficients = ps })) result num.old
        den.old num.new den.new }
{
    let js = build_jumps::jumps(num, den, rows, join, k).ok_or(codes::TOO_LARGE)?;
    let plan = build_step::plan_step(js, rows).map_err(|refusal| refusal.code())?;
    build_step::renew_rows(num, den, plan.of, plan.f, plan.l, rows, columns).ok_or(
        codes::TOO_LARGE,
    )?;
    undo(js, plan.of, plan.f, plan.l, cs, rows)
}

// The orders 0 up to n - 1 at one join; `rows` is the number of rows before.
fn recover_orders(
    num: &mut [i64],
    den: &mut [i64],
    join: Join,
    n: usize,
    rows: usize,
    columns: usize,
    cs: Fractions,
) -> Result<Fractions, u8>
    requires { OrdersAsk join n num.old den.old rows columns cs }
    ensures { (s : Space) (j : ℕ) (t : Table) (ps : List ℚ) → JoinIs join s j → Holds num.old den.old t
        → Shaped t rows columns → cs ≡ fractions ps → length ps ≡ rows → AllFit ps
        → Leaves (Recovery.recover_orders s j n (record { table = t; coefficients = ps })) result num.old den.old
        num.new den.new }
{
    let mut present = cs;
    for k in 0..n {
        present = recover_step(num, den, join, k, rows - k, columns, present)?;
    }
    Ok(present)
}

// The n orders at one join, after the rows of the segment on its right have come in with their ordinates; `rows` is the number of
// rows before.
fn recover_join(
    ordinates: &[i32],
    num: &mut [i64],
    den: &mut [i64],
    join: Join,
    n: usize,
    rows: usize,
    columns: usize,
    cs: Fractions,
) -> Result<Fractions, u8>
    requires { JoinAsks ordinates.now join n num.old den.old rows columns cs }
    ensures { (s : Space) (j : ℕ) (t : Table) (ps : List ℚ) → JoinIs join s j → Holds num.old den.old t
        → Shaped t rows columns → cs ≡ fractions ps → length ps ≡ rows → AllFit ps
        → Leaves (Recovery.recover_orders s j n (grown_combination s j columns ordinates.now
        (record { table = t; coefficients = ps }))) result num.old den.old num.new den.new }
{
    let right = join.right;
    let more = right.degree + 1;
    build_table::add_rows(num, rows, right.column, more);
    let present = recover_arrays::append(cs, rows, ordinates, right.column, more);
    recover_orders(num, den, join, n, rows + more, columns, present)
}

// The joins from the left, from the ordinates: the coefficients at the end, or the refusal with its join. The rows of a segment come in
// with the join before it, as in the build.
fn recover_joins(
    breaks: &[i32],
    degrees: &[i32],
    orders: &[i32],
    ordinates: &[i32],
    num: &mut [i64],
    den: &mut [i64],
    columns: usize,
) -> Result<Joined, Refusal>
    requires { JoinsAsk breaks.now degrees.now orders.now ordinates.now num.old den.old columns }
    ensures { JoinsLeave (Recovery.recovered (space breaks.now degrees.now orders.now)
        ordinates.now) (row_count (space breaks.now degrees.now orders.now)) result num.old
        den.old num.new den.new }
{
    let mut rows = build_space::degree_at(degrees, 0) + 1;
    let mut present = recover_arrays::append(arrays::no_fractions(), 0, ordinates, 0, rows);
    for j in 0..orders.len() {
        let n = build_space::condition_count(orders, j);
        let more = build_space::degree_at(degrees, j + 1) + 1;
        let join = build_joins::join_at(breaks, degrees, j);
        present = match recover_join(ordinates, num, den, join, n, rows, columns, present) {
            Ok(next) => next,
            Err(code) => {
                let place = base_outcome::place(j);
                return Err(Refusal { code, place });
            }
        };
        rows = rows + more - n;
    }
    Ok(Joined { rows, of: present })
}

// One part whose lists and ordinates are legal, in buffers that are long enough; after a refusal these hold whatever they hold.
pub fn recover_part(
    breaks: &[i32],
    degrees: &[i32],
    orders: &[i32],
    ordinates: &[i32],
    num: &mut [i64],
    den: &mut [i64],
) -> Result<Joined, Refusal>
    requires { PartAsks breaks.now degrees.now orders.now ordinates.now num.old den.old }
    ensures { JoinsLeave (Recovery.recovered (space breaks.now degrees.now orders.now)
        ordinates.now) (row_count (space breaks.now degrees.now orders.now)) result num.old
        den.old num.new den.new }
{
    let columns = build_space::first_column(degrees, degrees.len());
    build_table::identity(num, den, build_space::degree_at(degrees, 0) + 1);
    recover_joins(breaks, degrees, orders, ordinates, num, den, columns)
}
