// The parts of a beam: each is built by itself in the same two buffers, from the left, so that the last one stays there.
ghost use Rattle.std.specs.Prelude.{◌-◌};
ghost use Rattle.spec_spline.specs.Space.{row_count};
ghost use Rattle.spec_spline.specs.Build;
ghost use Rattle.theorems_beams.specs.Sections.{section};
ghost use Rattle.build_space.specs.Machine.{space};
ghost use Rattle.build_joins.specs.Leaves.{Ends};
ghost use Rattle.build.specs.Asks.{PartAsks, PartsAsk};
ghost use Rattle.build.specs.Leaves.{BeamEnds};

use base_outcome::Refusal;

// The build of the part from segment a up to segment b, in buffers that are clear from row `used` on.
pub fn build_part(
    breaks: &[i32],
    degrees: &[i32],
    orders: &[i32],
    a: usize,
    b: usize,
    num: &mut [i64],
    den: &mut [i64],
    used: usize,
) -> Result<usize, Refusal>
    requires { PartAsks breaks.now degrees.now orders.now a b num.old den.old used }
    ensures { let part = section (space breaks.now degrees.now orders.now) a (b - a) in
        Ends (Build.weights part) (row_count part) result num.old den.old num.new den.new }
{
    build_joins::build_legal(
        &breaks[a..b + 1],
        &degrees[a..b],
        &orders[a..b - 1],
        num,
        den,
        used,
    )
}

// The build of a beam whose lists are legal, in buffers that are long enough. Rows and places count over the beam. The first part
// clears the whole table, a later one only the rows of the part before it.
pub fn build_parts(
    breaks: &[i32],
    degrees: &[i32],
    orders: &[i32],
    num: &mut [i64],
    den: &mut [i64],
) -> Result<usize, Refusal>
    requires { PartsAsk breaks.now degrees.now orders.now num.old den.old }
    ensures { let s = space breaks.now degrees.now orders.now in
        BeamEnds s (Build.weights s) result num.old den.old num.new den.new }
{
    let mut rows = 0;
    let mut used = build_cells::ROW_CELLS;
    let mut a = 0;
    // A `while`: the step is from part to part.
    while a < degrees.len() {
        let b = build_space::part_end(degrees, orders, a);
        match build_part(breaks, degrees, orders, a, b, num, den, used) {
            Ok(n) => {
                rows += n;
                used = n;
            }
            Err(refusal) => {
                return Err(Refusal {
                    code: refusal.code,
                    place: base_outcome::place(a + refusal.place as usize),
                });
            }
        }
        a = b;
    }
    Ok(rows)
}
