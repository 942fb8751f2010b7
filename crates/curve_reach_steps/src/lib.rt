// The first offset of a segment at which the value of its ordinates reaches a target: from position to position, past those that the
// value before them cannot rise to.
#![tactic(auto)]

ghost use Rattle.std.specs.Prelude.{◌≡◌, suc, ◌+◌, ◌-◌, ◌*◌, ◌≤◌, pos, get_or};
ghost use Rattle.std.specs.Int.Signed.{le_z};
ghost use Rattle.base_outcome.specs.Search.{first};
ghost use Rattle.base_outcome.specs.Search;
ghost use Rattle.curve_reach_steps.specs.Machine;
ghost use Rattle.curve_reach_steps.specs.Asks.{RiseAsks, ColumnsAsk, AheadAsks, OffsetAsks, StepAsks, OffsetsAsk};

// The greater of `rise` and the rise from `low` to `high`.
fn steeper(rise: usize, low: i64, high: i64) -> usize
    requires { RiseAsks rise low high }
    ensures { Machine.RiseIs rise low high result }
{
    let reached = low + rise as i64;
    if reached < high {
        return (high - low) as usize;
    }
    rise
}

// The greatest rise from one of the p + 1 ordinates from column c on to the next, 1 where it is less.
fn steepest(ordinates: &[i32], c: usize, p: usize) -> usize
    requires { ColumnsAsk ordinates.now c p }
    ensures { Machine.Steepest ordinates.now c p result }
{
    let mut rise = 1;
    for k in 0..p {
        let low = ordinates[c + k];
        let high = ordinates[c + k + 1];
        rise = steeper(rise, low as i64, high as i64);
    }
    rise
}

// Whether one of the p + 1 ordinates from column c on reaches the target. If none does, no value of theirs does.
fn one_reaches(ordinates: &[i32], c: usize, p: usize, target: i64) -> bool
    requires { ColumnsAsk ordinates.now c p }
    ensures { result ≡ Search.found (first (suc p) (λ k. le_z target (get_or ordinates.now (c + k) (pos 0)))) }
{
    for k in 0..p + 1 {
        let o = ordinates[c + k] as i64;
        if o >= target {
            return true;
        }
    }
    false
}

// How many positions after one that lies below the target by `gap` are sure to lie below it too: in a segment of degree p and
// length d, whose steepest rise times p is `cost`.
fn ahead(gap: usize, p: usize, d: usize, cost: usize) -> usize
    requires { AheadAsks gap d cost }
    ensures { result * cost ≤ (gap - p) * d }
{
    if gap <= p {
        return 0;
    }
    let room = (gap - p) * d;
    if room < cost {
        return 0;
    }
    room / cost
}

// The value at offset u of a segment of length d, of the p + 1 ordinates from column c on.
fn value_on(ordinates: &[i32], c: usize, p: usize, d: usize, u: usize) -> i64
    requires { OffsetAsks ordinates.now c p d u }
    ensures { Machine.ValueOnIs ordinates.now c p d u result }
{
    let location = curve_places::Location {
        column: c,
        degree: p,
        offset: u as i64,
        width: d as i64,
    };
    curve_places::value_at(ordinates, location) as i64
}

// The first offset from `start` on at which such a value reaches the target; one from `end` on where none before it does. Each
// value tells how many of the next ones to pass over.
fn step_through(
    ordinates: &[i32],
    c: usize,
    p: usize,
    d: usize,
    start: usize,
    end: usize,
    target: i64,
) -> usize
    requires { StepAsks ordinates.now c p d end target }
    ensures { Machine.LeastFrom (Machine.value_on ordinates.now c p d) target start end result }
{
    let cost = p * steepest(ordinates, c, p);
    let mut u = start;
    // A `loop`: the step is how many positions the value lets pass over.
    let at = loop {
        if u >= end {
            break u;
        }
        let v = value_on(ordinates, c, p, d, u);
        if v >= target {
            break u;
        }
        u += 1 + ahead((target - v) as usize, p, d, cost);
    };
    at
}

// The same for any target: a segment whose ordinates all lie below it is passed over.
pub fn first_offset(
    ordinates: &[i32],
    c: usize,
    p: usize,
    d: usize,
    start: usize,
    end: usize,
    target: i64,
) -> usize
    requires { OffsetsAsk ordinates.now c p d start end }
    ensures { Machine.LeastFrom (Machine.value_on ordinates.now c p d) target start end result }
{
    if one_reaches(ordinates, c, p, target) {
        return step_through(ordinates, c, p, d, start, end, target);
    }
    end
}
