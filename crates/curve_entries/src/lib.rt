// The refusals 6 and 7 of a legal space: the coefficients and the positions, each by itself.
#![tactic(auto)]

ghost use Rattle.std.specs.Prelude.{◌≡◌, [], pos, length, get_or};
ghost use Rattle.build_space.specs.Machine.{space};
ghost use Rattle.base_outcome.specs.Machine.{reply, found};
ghost use Rattle.build_space.specs.Legal.{JoinsLegal};
ghost use Rattle.base_outcome.specs.Search;
ghost use Rattle.spec_spline.specs.Reading.{fine};
ghost use Rattle.curve_entries.specs.Limits.{coefficients_checked, outside, positions_checked, SpanAsks};

use base_outcome::{Refusal, codes, limits};

// Coefficients run from minus this to this.
pub const COEFFICIENT_LIMIT: i32 = 1000000;

// The first entry below the one bound or above the other.
pub fn first_outside(list: &[i32], low: i32, high: i32) -> Option<usize>
    ensures { result ≡ found (Search.first (length list.now) (outside list.now low high)) }
{
    list.iter().position(|x| *x < low || *x > high)
}

// Code 6 of a legal space: the count first, two numbers a row.
pub fn check_coefficients(degrees: &[i32], orders: &[i32], coefs: &[i32]) -> Result<(), Refusal>
    requires { JoinsLegal degrees.now orders.now }
    ensures { reply result ≡ coefficients_checked (space [] degrees.now orders.now) coefs.now }
{
    let n = build_space::row_count(degrees, orders);
    if coefs.len() != 2 * n {
        return Err(Refusal {
            code: codes::COEFFICIENT,
            place: base_outcome::LARGEST_PLACE,
        });
    }
    let bad = first_outside(coefs, 0 - COEFFICIENT_LIMIT, COEFFICIENT_LIMIT);
    base_outcome::refuse_first(codes::COEFFICIENT, bad)
}

// Code 7 of a legal space.
pub fn check_positions(breaks: &[i32], m: usize, positions: &[i32]) -> Result<(), Refusal>
    requires { SpanAsks breaks.now m }
    ensures { reply result ≡ positions_checked positions.now (fine (get_or breaks.now 0 (pos 0)))
        (fine (get_or breaks.now m (pos 0))) }
{
    let low = limits::FINENESS * breaks[0];
    let high = limits::FINENESS * breaks[m];
    base_outcome::refuse_first(codes::POSITION, first_outside(positions, low, high))
}
