// The refusals 2 to 7 and 15 of a curve call, in the order of their numbers but for 15, which follows 5.
#![tactic(auto)]

ghost use Rattle.std.specs.Prelude.{◌≡◌};
ghost use Rattle.build_space.specs.Machine.{space};
ghost use Rattle.base_outcome.specs.Machine.{reply, passed};
ghost use Rattle.build_space.specs.Legal.{ListsLegal};
ghost use Rattle.base_outcome.specs.Outcome.{answer};
ghost use Rattle.spec_spline.specs.CurveCall.{legal_entries, curve_checked};

use base_outcome::{Refusal, codes, limits};

// Codes 6 and 7 of a legal space.
fn check_entries(
    breaks: &[i32],
    degrees: &[i32],
    orders: &[i32],
    coefs: &[i32],
    positions: &[i32],
) -> Result<(), Refusal>
    requires { ListsLegal breaks.now degrees.now orders.now }
    ensures { reply result ≡ passed (legal_entries (space breaks.now degrees.now orders.now)
        coefs.now positions.now (answer (space breaks.now degrees.now
        orders.now))) }
{
    curve_entries::check_coefficients(degrees, orders, coefs)?;
    curve_entries::check_positions(breaks, degrees.len(), positions)
}

// The first of the refusals 2 to 5, 15, 6 and 7.
pub fn check(
    breaks: &[i32],
    degrees: &[i32],
    orders: &[i32],
    coefs: &[i32],
    positions: &[i32],
) -> Result<(), Refusal>
    ensures { reply result ≡ passed (curve_checked (space breaks.now degrees.now orders.now)
        coefs.now positions.now) }
{
    if !build_limits::lengths_fit(breaks, degrees, orders) {
        return Err(Refusal {
            code: codes::LENGTHS,
            place: 0,
        });
    }
    if positions.len() > limits::POSITION_LIMIT {
        return Err(Refusal {
            code: codes::LENGTHS,
            place: 1,
        });
    }
    build_limits::check(breaks, degrees, orders)?;
    check_entries(breaks, degrees, orders, coefs, positions)
}
