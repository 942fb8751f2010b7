// The parts of a beam: each is recovered by itself from the left, and its coefficients are written behind those of the parts before it.
ghost use Rattle.std.specs.Prelude.{◌≡◌, List, ◌++◌, ◌+◌, ◌-◌, ◌≤◌, ℤ, length, take, drop};
ghost use Rattle.base_exact.specs.Rational.{ℚ};
ghost use Rattle.spec_spline.specs.Space.{first_column, column_count, row_count};
ghost use Rattle.theorems_beams.specs.Sections.{section};
ghost use Rattle.build_space.specs.Machine.{space};
ghost use Rattle.base_fraction.specs.Fractions.{fractions};
ghost use Rattle.spec_calls.specs.Recovery;
ghost use Rattle.spec_calls.specs.RecoveryCall.{listed, numerator_of, denominator_of};
ghost use Rattle.recover_joins.specs.Leaves.{JoinsLeave};
ghost use Rattle.recover.specs.Asks.{WriteAsks, PartAsks, PartsAsk};
ghost use Rattle.recover.specs.Leaves.{CoefficientsListed, BeamEnds};

use base_fraction::arrays;
use base_fraction::arrays::Fractions;
use base_outcome::Refusal;
use recover_joins::Joined;

// The first n coefficients in the cells from `from` on.
fn write(coef_num: &mut [i64], coef_den: &mut [i64], from: usize, cs: Fractions, n: usize)
    requires { WriteAsks coef_num.old coef_den.old from n }
    ensures { (done ps : List ℚ) (num den : List ℤ) → cs ≡ fractions ps → length done ≡ from → length ps ≡ n
        → coef_num.old ≡ listed numerator_of from done num → coef_den.old ≡ listed denominator_of from done den
        → from + n ≤ length num → from + n ≤ length den
        → CoefficientsListed (from + n) (done ++ ps) num den coef_num.new coef_den.new }
{
    for i in 0..n {
        let q = arrays::fraction_at(&cs.num, &cs.den, i);
        let p = q.num;
        let d = q.den;
        let k = from + i;
        coef_num[k] = p;
        coef_den[k] = d;
    }
}

// The part from segment a up to segment b, from the ordinates of its own columns.
fn recover_at(
    breaks: &[i32],
    degrees: &[i32],
    orders: &[i32],
    ordinates: &[i32],
    a: usize,
    b: usize,
    num: &mut [i64],
    den: &mut [i64],
) -> Result<Joined, Refusal>
    requires { PartAsks breaks.now degrees.now orders.now ordinates.now a b num.old den.old }
    ensures { let s = space breaks.now degrees.now orders.now in
        let part = section s a (b - a) in
        JoinsLeave (Recovery.recovered part (take (column_count part) (drop (first_column s a) ordinates.now))) (row_count part) result
        num.old den.old num.new den.new }
{
    let from = build_space::first_column(degrees, a);
    let to = build_space::first_column(degrees, b);
    recover_joins::recover_part(
        &breaks[a..b + 1],
        &degrees[a..b],
        &orders[a..b - 1],
        &ordinates[from..to],
        num,
        den,
    )
}

// A beam whose lists and ordinates are legal, in buffers that are long enough. Rows and places count over the beam.
pub fn recover_parts(
    breaks: &[i32],
    degrees: &[i32],
    orders: &[i32],
    ordinates: &[i32],
    num: &mut [i64],
    den: &mut [i64],
    coef_num: &mut [i64],
    coef_den: &mut [i64],
) -> Result<usize, Refusal>
    requires { PartsAsk breaks.now degrees.now orders.now ordinates.now num.old den.old coef_num.old
        coef_den.old }
    ensures { let s = space breaks.now degrees.now orders.now in
        BeamEnds s (length ordinates.now) (Recovery.recovered s ordinates.now) result num.old den.old
        coef_num.old coef_den.old num.new den.new coef_num.new
        coef_den.new }
{
    let mut rows = 0;
    let mut a = 0;
    // A `while`: the step is from part to part.
    while a < degrees.len() {
        let b = build_space::part_end(degrees, orders, a);
        match recover_at(breaks, degrees, orders, ordinates, a, b, num, den) {
            Err(refusal) => {
                build_cells::clear(num, den, 0, build_cells::TABLE_CELLS);
                build_cells::clear(coef_num, coef_den, 0, ordinates.len());
                return Err(Refusal {
                    code: refusal.code,
                    place: base_outcome::place(a + refusal.place as usize),
                });
            }
            Ok(part) => {
                write(coef_num, coef_den, rows, part.of, part.rows);
                rows += part.rows;
            }
        }
        a = b;
    }
    build_cells::clear(coef_num, coef_den, rows, ordinates.len());
    Ok(rows)
}
