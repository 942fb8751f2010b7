// The joins of a part from the left, and the build of a part: its steps in buffers that hold its first segment's rows.
#![tactic(auto)]

ghost use Rattle.std.specs.Prelude.{[], ℕ, ◌+◌};
ghost use Rattle.spec_spline.specs.Space.{Space, row_count};
ghost use Rattle.spec_spline.specs.Table.{Table};
ghost use Rattle.spec_spline.specs.Build;
ghost use Rattle.build_space.specs.Machine.{space};
ghost use Rattle.build_cells.specs.Held.{Holds, Shaped};
ghost use Rattle.build_conditions.specs.Sides.{SideIs, JoinIs};
ghost use Rattle.build_step.specs.Leaves.{Leaves};
ghost use Rattle.build_joins.specs.Leaves.{JoinsLeave, Ends, grown};
ghost use Rattle.build_joins.specs.Asks.{JoinAsks, SideAsks, JoinsAsk, LegalAsks};

use base_outcome::Refusal;
use build_conditions::{Join, Side};
use build_factors::StepRefusal;

// The n orders at one join, after the rows of the segment on its right have come in; `rows` is the number of rows before.
fn join_step(
    num: &mut [i64],
    den: &mut [i64],
    join: Join,
    n: usize,
    rows: usize,
    columns: usize,
) -> Result<(), StepRefusal>
    requires { JoinAsks join n num.old den.old rows columns }
    ensures { (s : Space) (j : ℕ) (t : Table) → JoinIs join s j → Holds num.old den.old t
        → Shaped t rows columns
        → Leaves (Build.order_steps s j n (grown s j columns t)) result num.old den.old num.new
        den.new }
{
    let right = join.right;
    let more = right.degree + 1;
    build_table::add_rows(num, rows, right.column, more);
    build_step::order_steps(num, den, join, n, rows + more, columns)
}

fn side_at(breaks: &[i32], degrees: &[i32], i: usize) -> Side
    requires { SideAsks breaks.now degrees.now i }
    ensures { SideIs result (space breaks.now degrees.now []) i }
{
    let degree = build_space::degree_at(degrees, i);
    let length = build_space::segment_length(breaks, i);
    let column = build_space::first_column(degrees, i);
    Side {
        degree: degree,
        length: length,
        column: column,
    }
}

pub fn join_at(breaks: &[i32], degrees: &[i32], j: usize) -> Join
    requires { SideAsks breaks.now degrees.now (j + 1) }
    ensures { JoinIs result (space breaks.now degrees.now []) j }
{
    let left = side_at(breaks, degrees, j);
    let right = side_at(breaks, degrees, j + 1);
    Join {
        left: left,
        right: right,
    }
}

// The joins from the left: the number of rows at the end, or the refusal with its join. The rows of a segment come in with the
// join before it: no step touches them earlier.
fn join_steps(
    breaks: &[i32],
    degrees: &[i32],
    orders: &[i32],
    num: &mut [i64],
    den: &mut [i64],
    columns: usize,
) -> Result<usize, Refusal>
    requires { JoinsAsk breaks.now degrees.now orders.now num.old den.old columns }
    ensures { JoinsLeave (Build.weights (space breaks.now degrees.now orders.now))
        (row_count (space breaks.now degrees.now orders.now)) result num.old den.old
        num.new den.new }
{
    let mut rows = build_space::degree_at(degrees, 0) + 1;
    for j in 0..orders.len() {
        let n = build_space::condition_count(orders, j);
        let more = build_space::degree_at(degrees, j + 1) + 1;
        let join = join_at(breaks, degrees, j);
        if let Err(refusal) = join_step(num, den, join, n, rows, columns) {
            let place = base_outcome::place(j);
            return Err(Refusal {
                code: refusal.code(),
                place,
            });
        }
        rows = rows + more - n;
    }
    Ok(rows)
}

// The build of one part whose lists are legal, in buffers that are long enough and clear from row `used` on.
pub fn build_legal(
    breaks: &[i32],
    degrees: &[i32],
    orders: &[i32],
    num: &mut [i64],
    den: &mut [i64],
    used: usize,
) -> Result<usize, Refusal>
    requires { LegalAsks breaks.now degrees.now orders.now num.old den.old used }
    ensures { let s = space breaks.now degrees.now orders.now in
        Ends (Build.weights s) (row_count s) result num.old den.old num.new den.new }
{
    let columns = build_space::first_column(degrees, degrees.len());
    build_table::identity_over(num, den, build_space::degree_at(degrees, 0) + 1, used);
    let built = join_steps(breaks, degrees, orders, num, den, columns);
    if built.is_err() {
        build_cells::clear(num, den, 0, build_cells::TABLE_CELLS);
    }
    built
}
