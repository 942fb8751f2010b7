// The segment of a position, by the first positions of all segments, which are worked out once a call.
#![tactic(auto)]

ghost use Rattle.std.specs.Prelude.{◌≡◌, List, [], ◌<◌, ◌≤◌, ℤ, pos, length, get_or};
ghost use Rattle.std.proofs.Math.Option;
ghost use Rattle.std.specs.Int.Signed.{le_z};
ghost use Rattle.build_space.specs.Machine.{space};
ghost use Rattle.build_space.specs.Legal.{ListsLegal};
ghost use Rattle.base_outcome.specs.Search;
ghost use Rattle.spec_spline.specs.Reading;
ghost use Rattle.curve_segments.specs.Segments.{first_position, first_positions_of, StartAt};

use base_outcome::limits;

// Whether segment i starts at a discontinuity.
fn starts_at_discontinuity(orders: &[i32], i: usize) -> bool
    requires { i ≤ length orders.now }
    ensures { result ≡ Reading.starts_at_discontinuity (space [] [] orders.now) i }
{
    if i == 0 {
        return false;
    }
    build_space::is_discontinuity(orders, i - 1)
}

// The first position of segment i.
fn first_position(breaks: &[i32], orders: &[i32], i: usize) -> i32
    requires { StartAt breaks.now orders.now i }
    ensures { result ≡ first_position (space breaks.now [] orders.now) i }
{
    let start = limits::FINENESS * breaks[i];
    if starts_at_discontinuity(orders, i) {
        return start + 1;
    }
    start
}

// The first positions of the segments.
pub fn first_positions(
    breaks: &[i32],
    degrees: &[i32],
    orders: &[i32],
) -> [i32; build_space::SEGMENT_LIMIT]
    requires { ListsLegal breaks.now degrees.now orders.now }
    ensures { result ≡ first_positions_of (space breaks.now degrees.now orders.now) }
{
    let mut firsts = [0; build_space::SEGMENT_LIMIT];
    for i in 0..degrees.len() {
        firsts[i] = first_position(breaks, orders, i);
    }
    firsts
}

// The last of m segments whose first position is at or before position x. All are looked at: a loop that ends early is mostly
// guessed wrong by the processor, which costs more than the comparisons that it saves.
fn segment_at(firsts: &[i32], m: usize, x: i32) -> usize
    requires { m ≤ length firsts.now }
    ensures { result ≡ Option.get_or (Search.last m (λ k. le_z (get_or firsts.now k (pos 0)) x)) 0 }
{
    let mut at = 0;
    for (i, first) in firsts[..m].iter().enumerate() {
        if *first <= x {
            at = i;
        }
    }
    at
}

// The segment of position x. The one given, of the position before, is tried first: most lists rise.
pub fn segment_near(firsts: &[i32], m: usize, x: i32, near: usize) -> usize
    requires { (near < m) × (m ≤ length firsts.now) }
    ensures { (b d o : List ℤ) → ListsLegal b d o → firsts.now ≡ first_positions_of (space b d o) → length d ≡ m
        → result ≡ Reading.segment_at (space b d o) x }
{
    let first = firsts[near];
    if first <= x {
        let next = near + 1;
        if next == m {
            return near;
        }
        let after = firsts[next];
        if x < after {
            return near;
        }
    }
    segment_at(firsts, m, x)
}
