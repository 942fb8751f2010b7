// The refusals 2 to 5 and 15 of the three lists, in their order.
#![tactic(auto)]

ghost use Rattle.std.specs.Prelude.{◌≡◌, ◌+◌, ◌<◌, ℕ, ℤ, List, length, IfSome};
ghost use Rattle.std.proofs.Math.Option as math;
ghost use Rattle.base_outcome.specs.Machine.{reply, passed, found};
ghost use Rattle.spec_spline.specs.Space.{lengths_fit, checked_entries, checked, part_end_at};
ghost use Rattle.build_space.specs.Machine.{space};

use base_outcome::{Refusal, codes};
use build_rules::Rule;

pub fn lengths_fit(breaks: &[i32], degrees: &[i32], orders: &[i32]) -> bool
    ensures { result ≡ lengths_fit (space breaks.now degrees.now orders.now) }
{
    let m = degrees.len();
    if m < 1 {
        return false;
    }
    if m > build_space::SEGMENT_LIMIT {
        return false;
    }
    if breaks.len() != m + 1 {
        return false;
    }
    orders.len() == m - 1
}

// The last breakpoint of the part that segment i starts.
fn end_of(degrees: &[i32], orders: &[i32], start: Option<usize>) -> Option<usize>
    requires { (length degrees.now ≡ length orders.now + 1) × IfSome start (λ i. i < length degrees.now) }
    ensures { (breaks : List ℤ) (o : math.Option ℕ) → start ≡ found o
        → result ≡ found (part_end_at (space breaks degrees.now orders.now) o) }
{
    Some(build_space::part_end(degrees, orders, start?))
}

// The first of the refusals 3 to 5 and 15, in this order, where the lengths fit. Of a part whose span is too long, code 3, the place is
// the last breakpoint.
fn check_entries(breaks: &[i32], degrees: &[i32], orders: &[i32]) -> Result<(), Refusal>
    requires { (length degrees.now ≡ length orders.now + 1) × (length breaks.now ≡ length degrees.now + 1) }
    ensures { reply result ≡ passed (checked_entries (space breaks.now degrees.now orders.now)) }
{
    let m = degrees.len();
    let bad_break = build_rules::first_bad(Rule::Breakpoint, breaks, degrees, orders, breaks.len());
    base_outcome::refuse_first(codes::BREAKPOINT, bad_break)?;
    let long_span = build_rules::first_bad(Rule::Span, breaks, degrees, orders, m);
    base_outcome::refuse_first(codes::BREAKPOINT, end_of(degrees, orders, long_span))?;
    let bad_degree = build_rules::first_bad(Rule::Degree, breaks, degrees, orders, m);
    base_outcome::refuse_first(codes::DEGREE, bad_degree)?;
    let bad_order = build_rules::first_bad(Rule::Order, breaks, degrees, orders, orders.len());
    base_outcome::refuse_first(codes::ORDER, bad_order)?;
    let long_part = build_rules::first_bad(Rule::Segments, breaks, degrees, orders, m);
    base_outcome::refuse_first(codes::LONG_PART, long_part)
}

// The first of the refusals 2 to 5 and 15, in this order.
pub fn check(breaks: &[i32], degrees: &[i32], orders: &[i32]) -> Result<(), Refusal>
    ensures { reply result ≡ passed (checked (space breaks.now degrees.now orders.now)) }
{
    if !lengths_fit(breaks, degrees, orders) {
        return Err(Refusal {
            code: codes::LENGTHS,
            place: 0,
        });
    }
    check_entries(breaks, degrees, orders)
}
