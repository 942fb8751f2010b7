// The weights of a multi-degree spline space: exact fractions in two lent buffers, by the specification's steps.
#![tactic(auto)]

ghost use Rattle.std.specs.Prelude.{◌≡◌};
ghost use Rattle.spec_spline.specs.Build.{build_end};
ghost use Rattle.build_space.specs.Machine.{space};
ghost use Rattle.base_outcome.specs.Machine.{reply};

use base_outcome::{Refusal, codes};

pub mod parts;

// Builds the weights of the beam with these breakpoints, degrees and orders. Lists and buffers may have any length and
// content: what the definition refuses is refused, and the buffers are then as it says.
pub fn build(
    breaks: &[i32],
    degrees: &[i32],
    orders: &[i32],
    num: &mut [i64],
    den: &mut [i64],
) -> Result<usize, Refusal>
    ensures { let e = build_end (space breaks.now degrees.now orders.now) num.old
        den.old in
        (reply result ≡ e.answers) × ((num.new ≡ e.numerators) × (den.new ≡ e.denominators)) }
{
    if num.len() < build_cells::TABLE_CELLS {
        return Err(Refusal {
            code: codes::SHORT_BUFFER,
            place: 0,
        });
    }
    if den.len() < build_cells::TABLE_CELLS {
        return Err(Refusal {
            code: codes::SHORT_BUFFER,
            place: 1,
        });
    }
    build_limits::check(breaks, degrees, orders)?;
    parts::build_parts(breaks, degrees, orders, num, den)
}
