// The parts of a beam from the left: each is built by itself, and its ordinates are put behind those of the parts before it.
#![tactic(auto)]

ghost use Rattle.std.specs.Prelude.{◌+◌};
ghost use Rattle.spec_spline.specs.Reading.{coefficient};
ghost use Rattle.theorems_beams.specs.Sections.{part_at};
ghost use Rattle.build_space.specs.Machine.{space};
ghost use Rattle.curve_parts.specs.Parts.{lent, PartAsks, PartsAsk, PartsLeave};

use base_outcome::Refusal;
use curve_ordinates::Wood;

// Builds the part from segment a up to segment b, and writes the ordinates of its columns for each wood part. Its coefficients
// are those from row `row` on.
fn build_part(
    breaks: &[i32],
    degrees: &[i32],
    orders: &[i32],
    a: usize,
    b: usize,
    coefs: &[i32],
    row: usize,
    num: &mut [i64],
    den: &mut [i64],
    early: &mut [i32],
    late: &mut [i32],
) -> Result<usize, Refusal>
    requires { PartAsks (space breaks.now degrees.now orders.now) a b coefs.now row
        (lent num.old den.old early.old late.old) }
    ensures { PartsLeave (part_at (space breaks.now degrees.now orders.now) a)
        (λ wood i. coefficient wood coefs.now (row + i)) result
        (lent num.old den.old early.old late.old)
        (lent num.new den.new early.new late.new) }
{
    let n = build::build(
        &breaks[a..b + 1],
        &degrees[a..b],
        &orders[a..b - 1],
        num,
        den,
    )?;
    let own = &coefs[2 * row..2 * (row + n)];
    curve_ordinates::ordinates(num, den, own, Wood::Earlywood, n, early);
    curve_ordinates::ordinates(num, den, own, Wood::Latewood, n, late);
    Ok(n)
}

// Builds the parts, and writes the ordinates of all columns for each wood part. A refusal's place is counted over the beam.
pub fn build_parts(
    breaks: &[i32],
    degrees: &[i32],
    orders: &[i32],
    coefs: &[i32],
    num: &mut [i64],
    den: &mut [i64],
    early: &mut [i32],
    late: &mut [i32],
) -> Result<usize, Refusal>
    requires { PartsAsk (space breaks.now degrees.now orders.now) coefs.now
        (lent num.old den.old early.old late.old) }
    ensures { PartsLeave (space breaks.now degrees.now orders.now)
        (λ wood. coefficient wood coefs.now) result
        (lent num.old den.old early.old late.old)
        (lent num.new den.new early.new late.new) }
{
    let mut row = 0;
    let mut column = 0;
    let mut a = 0;
    // A `while`: the step is from part to part.
    while a < degrees.len() {
        let b = build_space::part_end(degrees, orders, a);
        let end = build_space::first_column(degrees, b);
        let built = build_part(
            breaks,
            degrees,
            orders,
            a,
            b,
            coefs,
            row,
            num,
            den,
            &mut early[column..end],
            &mut late[column..end],
        );
        match built {
            Ok(n) => {
                row += n;
            }
            Err(refusal) => {
                return Err(Refusal {
                    code: refusal.code,
                    place: base_outcome::place(a + refusal.place as usize),
                });
            }
        }
        column = end;
        a = b;
    }
    Ok(row)
}
