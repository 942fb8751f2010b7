// The coefficients that give a list of local ordinates: exact fractions, by the steps of § 12.
#![tactic(auto)]

ghost use Rattle.std.specs.Prelude.{◌≡◌};
ghost use Rattle.build_space.specs.Machine.{space};
ghost use Rattle.base_outcome.specs.Machine.{reply};
ghost use Rattle.spec_calls.specs.RecoveryCall.{recovery_end};

use base_outcome::{Refusal, codes};

mod parts;

// Builds the weights and gives the coefficients whose curve has these local ordinates, as fractions of 256ths in the two answer
// buffers. Lists and buffers may have any length and content: what the definition refuses is refused, and the buffers are then as
// it says.
pub fn coefficients(
    breaks: &[i32],
    degrees: &[i32],
    orders: &[i32],
    ordinates: &[i32],
    num: &mut [i64],
    den: &mut [i64],
    coef_num: &mut [i64],
    coef_den: &mut [i64],
) -> Result<usize, Refusal>
    ensures { let e = recovery_end (space breaks.now degrees.now orders.now)
        ordinates.now num.old den.old coef_num.old coef_den.old in
        (reply result ≡ e.answers) × ((num.new ≡ e.numerators)
        × ((den.new ≡ e.denominators) × ((coef_num.new ≡ e.coefficient_numerators)
        × (coef_den.new ≡ e.coefficient_denominators)))) }
{
    if num.len() < build_cells::TABLE_CELLS {
        return Err(Refusal {
            code: codes::SHORT_BUFFER,
            place: 0,
        });
    }
    if den.len() < build_cells::TABLE_CELLS {
        return Err(Refusal {
            code: codes::SHORT_BUFFER,
            place: 1,
        });
    }
    if coef_num.len() < ordinates.len() {
        return Err(Refusal {
            code: codes::SHORT_BUFFER,
            place: 3,
        });
    }
    if coef_den.len() < ordinates.len() {
        return Err(Refusal {
            code: codes::SHORT_BUFFER,
            place: 4,
        });
    }
    build_limits::check(breaks, degrees, orders)?;
    recover_limits::check_ordinates(degrees, ordinates)?;
    parts::recover_parts(
        breaks, degrees, orders, ordinates, num, den, coef_num, coef_den,
    )
}
