// The w lines of a beam: each part is built again in the two lent buffers, and its rows and columns are counted over the beam.
#![tactic(auto)]

ghost use Rattle.std.specs.Prelude.{◌*◌, ◌^◌, ◌≤◌};
ghost use Rattle.spec_spline.specs.Table.{row_cells};
ghost use Rattle.build_space.specs.Machine.{space};
ghost use Rattle.base_print.specs.Buffer.{Puts};
ghost use Rattle.sheet_weights.specs.Printed.{weight_line_limit};
ghost use Rattle.sheet_beam.specs.Beam.{row_limit, weights_text, Filled, PartAsks, PartBuilt, PartsAsk};

// Builds the part from segment a up to segment b of an accepted beam, and answers its row count.
fn part_rows(
    breaks: &[i32],
    degrees: &[i32],
    orders: &[i32],
    a: usize,
    b: usize,
    num: &mut [i64],
    den: &mut [i64],
) -> usize
    requires { PartAsks (space breaks.now degrees.now orders.now) a b num.old den.old }
    ensures { PartBuilt (space breaks.now degrees.now orders.now) a num.old
        den.old num.new den.new result }
{
    build::parts::build_part(
        breaks,
        degrees,
        orders,
        a,
        b,
        num,
        den,
        build_cells::ROW_CELLS,
    )
    .unwrap()
}

// The w lines of an accepted beam, part by part from the left: each part is built in the two lent buffers, and its rows and
// columns are counted over the beam.
fn put_parts(
    breaks: &[i32],
    degrees: &[i32],
    orders: &[i32],
    num: &mut [i64],
    den: &mut [i64],
    out: &mut [u8],
    at: usize,
) -> usize
    requires { PartsAsk (space breaks.now degrees.now orders.now) num.old den.old at }
    ensures { Puts (weight_line_limit * (row_cells * row_limit)) at
        (weights_text (space breaks.now degrees.now orders.now)) out.old out.new result }
{
    let mut next = at;
    let mut row = 0;
    let mut a = 0;
    // A `while`: the step is from part to part.
    while a < degrees.len() {
        let b = build_space::part_end(degrees, orders, a);
        let column = build_space::first_column(degrees, a);
        let n = part_rows(breaks, degrees, orders, a, b, num, den);
        next = sheet_weights::put_weights(out, next, row, column, n, num, den);
        row += n;
        a = b;
    }
    next
}

// The w lines of an accepted beam whose last part is in the two buffers: a beam of one part is there as a whole.
pub fn put_beam(
    breaks: &[i32],
    degrees: &[i32],
    orders: &[i32],
    n: usize,
    num: &mut [i64],
    den: &mut [i64],
    out: &mut [u8],
    at: usize,
) -> usize
    requires filled { Filled (space breaks.now degrees.now orders.now) n num.old den.old }
    requires at_bound { at ≤ 2 ^ 40 }
    ensures { Puts (weight_line_limit * (row_cells * row_limit)) at
        (weights_text (space breaks.now degrees.now orders.now)) out.old out.new result }
{
    let end = build_space::part_end(degrees, orders, 0);
    if end == degrees.len() {
        return sheet_weights::put_weights(out, at, 0, 0, n, num, den);
    }
    put_parts(breaks, degrees, orders, num, den, out, at)
}
