// Where every curve call starts: the tests, the weights, and the ordinates of all columns for both wood parts. The calls then read
// them at given positions, for the first reach, or as a piece.
#![tactic(auto)]

ghost use Rattle.build_space.specs.Machine.{space};
ghost use Rattle.curve_parts.specs.Parts.{lent};
ghost use Rattle.curve_start.specs.Machine.{ColumnRoom, call, CurvesLeave};

use base_outcome::{Refusal, codes};

// Makes the tests of a curve call at these positions with `room` cells for values, builds the weights, and writes the ordinates of
// all columns for each wood part. The count of rows, or a refusal's code and place.
pub fn build_curves(
    breaks: &[i32],
    degrees: &[i32],
    orders: &[i32],
    coefs: &[i32],
    positions: &[i32],
    room: usize,
    num: &mut [i64],
    den: &mut [i64],
    early: &mut [i32],
    late: &mut [i32],
) -> Result<usize, Refusal>
    requires { ColumnRoom (lent num.old den.old early.old late.old) }
    ensures { CurvesLeave (call (space breaks.now degrees.now orders.now) coefs.now
        positions.now room) result
        (lent num.old den.old early.old late.old)
        (lent num.new den.new early.new late.new) }
{
    if num.len() < build_cells::TABLE_CELLS {
        return Err(Refusal {
            code: codes::SHORT_BUFFER,
            place: 0,
        });
    }
    if den.len() < build_cells::TABLE_CELLS {
        return Err(Refusal {
            code: codes::SHORT_BUFFER,
            place: 1,
        });
    }
    if room / 2 < positions.len() {
        return Err(Refusal {
            code: codes::SHORT_BUFFER,
            place: 2,
        });
    }
    if let Err(refusal) = curve_limits::check(breaks, degrees, orders, coefs, positions) {
        return Err(refusal);
    }
    curve_parts::build_parts(breaks, degrees, orders, coefs, num, den, early, late)
}
