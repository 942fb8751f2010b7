// The first position at which the curve of a wood part reaches a width: the weights and the ordinates of all columns as for the
// curve call without positions, and then a search over the segments.
#![tactic(auto)]

ghost use Rattle.std.specs.Prelude.{◌≡◌};
ghost use Rattle.base_outcome.specs.Search;
ghost use Rattle.spec_spline.specs.Reading.{fine};
ghost use Rattle.build_space.specs.Machine.{space};
ghost use Rattle.curve_ordinates.specs.Wood.{wood_of};
ghost use Rattle.spec_calls.specs.Positions.{position_count};
ghost use Rattle.curve_reach_search.specs.Machine.{reaches_held};
ghost use Rattle.curve_reach_search.specs.Asks.{SearchAsks};
ghost use Rattle.spec_calls.specs.Reach.{reached_at, reach_end};
ghost use Rattle.curve_reach.specs.Machine.{chosen};
ghost use Rattle.base_outcome.specs.Machine.{reply};
ghost use Rattle.curve_reach.specs.Asks.{ReachAsks};

use base_outcome::{Refusal, codes, limits};
use curve_ordinates::Wood;

// The first position at which the curve with these ordinates reaches the width, or code 16.
fn first_reach(
    breaks: &[i32],
    degrees: &[i32],
    orders: &[i32],
    ordinates: &[i32],
    width: i32,
) -> Result<i32, Refusal>
    requires { SearchAsks (space breaks.now degrees.now orders.now) ordinates.now }
    ensures { let s = space breaks.now degrees.now orders.now in
        reply result ≡ reached_at s (Search.first (position_count s) (reaches_held s ordinates.now (fine width))) }
{
    let target = limits::WIDE_FINENESS * width as i64;
    let found = curve_reach_search::search(breaks, degrees, orders, ordinates, target);
    found.ok_or(Refusal {
        code: codes::NEVER_REACHED,
        place: 0,
    })
}

// The same for the wood part, given the ordinates of both.
fn part_reach(
    wood: Wood,
    breaks: &[i32],
    degrees: &[i32],
    orders: &[i32],
    early: &[i32],
    late: &[i32],
    width: i32,
) -> Result<i32, Refusal>
    requires { ReachAsks (space breaks.now degrees.now orders.now) early.now late.now }
    ensures { let s = space breaks.now degrees.now orders.now in
        reply result ≡ reached_at s (Search.first (position_count s) (reaches_held s (chosen (wood_of wood) early.now late.now)
        (fine width))) }
{
    match wood {
        Wood::Earlywood => first_reach(breaks, degrees, orders, early, width),
        Wood::Latewood => first_reach(breaks, degrees, orders, late, width),
    }
}

// Builds the weights, and answers the least position of the span whose value for the wood part is at least 256 times the width.
// Lists and buffers may have any length and content: what the definition refuses is refused, and the buffers are then as it says.
pub fn reach(
    wood: Wood,
    breaks: &[i32],
    degrees: &[i32],
    orders: &[i32],
    coefs: &[i32],
    width: i32,
    num: &mut [i64],
    den: &mut [i64],
) -> Result<i32, Refusal>
    ensures { let e = reach_end (space breaks.now degrees.now orders.now) (wood_of wood)
        coefs.now width num.old den.old in
        (reply result ≡ e.answers) × ((num.new ≡ e.numerators) × (den.new ≡ e.denominators)) }
{
    let mut early = [0; curve_places::COLUMN_LIMIT];
    let mut late = [0; curve_places::COLUMN_LIMIT];
    if let Err(refusal) = curve_start::build_curves(
        breaks,
        degrees,
        orders,
        coefs,
        &coefs[0..0],
        0,
        num,
        den,
        &mut early,
        &mut late,
    ) {
        return Err(refusal);
    }
    part_reach(wood, breaks, degrees, orders, &early, &late, width)
}
