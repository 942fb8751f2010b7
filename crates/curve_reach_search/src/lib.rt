// The first position of the span at which a curve with given ordinates reaches a target: segment by segment.
#![tactic(auto)]

ghost use Rattle.std.specs.Prelude.{◌≡◌, [], pos, ◌+ℤ◌};
ghost use Rattle.base_outcome.specs.Search.{first};
ghost use Rattle.spec_spline.specs.Space.{break};
ghost use Rattle.spec_spline.specs.Reading.{fine};
ghost use Rattle.build_space.specs.Machine.{space};
ghost use Rattle.spec_calls.specs.Positions.{position_count};
ghost use Rattle.curve_reach_search.specs.Machine;
ghost use Rattle.curve_reach_search.specs.Asks.{SearchAsks, BoundaryAsks, PositionAsks};

use base_outcome::limits;

// The end of the span is the last segment's: the first offset past its own.
const PAST_THE_END: usize = 1;

// A discontinuity is the segment's before it: the first offset of the one after it.
const PAST_A_DISCONTINUITY: usize = 1;

// The first offset that belongs to segment i, or to the end of the last one.
fn start_offset(degrees: &[i32], orders: &[i32], i: usize) -> usize
    requires { BoundaryAsks degrees.now orders.now i }
    ensures { result ≡ Machine.start_offset (space [] degrees.now orders.now) i }
{
    if i == degrees.len() {
        return PAST_THE_END;
    }
    if i == 0 {
        return 0;
    }
    if build_space::is_discontinuity(orders, i - 1) {
        return PAST_A_DISCONTINUITY;
    }
    0
}

// The position at offset u of segment i.
fn position_at(breaks: &[i32], i: usize, u: usize) -> i32
    requires { PositionAsks breaks.now i u }
    ensures { result ≡ fine (break (space breaks.now [] []) i) +ℤ pos u }
{
    let start = breaks[i];
    limits::FINENESS * start + u as i32
}

// The first position of the span that reaches the target, if any does.
pub fn search(
    breaks: &[i32],
    degrees: &[i32],
    orders: &[i32],
    ordinates: &[i32],
    target: i64,
) -> Option<i32>
    requires { SearchAsks (space breaks.now degrees.now orders.now) ordinates.now }
    ensures { let s = space breaks.now degrees.now orders.now in
        result ≡ Machine.found s (first (position_count s) (Machine.reaches_held s ordinates.now target)) }
{
    let mut column = 0;
    let mut start = 0;
    for i in 0..degrees.len() {
        let p = build_space::degree_at(degrees, i);
        let d = curve_places::fine_width(breaks, i) as usize;
        let next = start_offset(degrees, orders, i + 1);
        let u = curve_reach_steps::first_offset(ordinates, column, p, d, start, d + next, target);
        if u < d + next {
            return Some(position_at(breaks, i, u));
        }
        column += p + 1;
        start = next;
    }
    None
}
