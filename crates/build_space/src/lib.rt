// The three lists of a space: the parts of a beam, and the lengths, columns and conditions of legal lists.
#![tactic(auto)]

ghost use Rattle.std.specs.Prelude.{◌≡◌, [], ◌+◌, ◌<◌, ◌≤◌, pos, length};
ghost use Rattle.spec_spline.specs.Space.{segment_limit, is_discontinuity, starts_part, part_end, degree, width, condition_count, first_column};
ghost use Rattle.spec_spline.specs.Space.{conditions_before, row_count};
ghost use Rattle.build_space.specs.Machine.{space};
ghost use Rattle.build_space.specs.Legal.{BreaksLegal, DegreesLegal, OrdersLegal, JoinsLegal};

pub const SEGMENT_LIMIT: usize = 48;

const DISCONTINUITY: i32 = -1;

// Whether join i is a discontinuity: its order is -1, and no other, legal or not.
pub fn is_discontinuity(orders: &[i32], i: usize) -> bool
    requires { i < length orders.now }
    ensures { result ≡ is_discontinuity (space [] [] orders.now) i }
{
    let order = orders[i];
    order == DISCONTINUITY
}

// Whether segment i is the first of a part.
pub fn starts_part(orders: &[i32], i: usize) -> bool
    requires { i ≤ length orders.now }
    ensures { result ≡ starts_part (space [] [] orders.now) i }
{
    if i == 0 {
        return true;
    }
    is_discontinuity(orders, i - 1)
}

// Where the part of segment i ends: the first later segment that starts a part, or the number of segments.
pub fn part_end(degrees: &[i32], orders: &[i32], i: usize) -> usize
    requires { (i < length degrees.now) × (length degrees.now ≡ length orders.now + 1) }
    ensures { result ≡ part_end (space [] degrees.now orders.now) i }
{
    for k in i + 1..degrees.len() {
        if starts_part(orders, k) {
            return k;
        }
    }
    degrees.len()
}

pub fn degree_at(degrees: &[i32], i: usize) -> usize
    requires { (i < length degrees.now) × DegreesLegal degrees.now }
    ensures { result ≡ degree (space [] degrees.now []) i }
{
    degrees[i] as usize
}

pub fn segment_length(breaks: &[i32], i: usize) -> i64
    requires { (i + 1 < length breaks.now) × BreaksLegal breaks.now }
    ensures { result ≡ pos (width (space breaks.now [] []) i) }
{
    let start = breaks[i];
    let end = breaks[i + 1];
    (end - start) as i64
}

// The number of conditions at join i.
pub fn condition_count(orders: &[i32], i: usize) -> usize
    requires { (i < length orders.now) × OrdersLegal orders.now }
    ensures { result ≡ condition_count (space [] [] orders.now) i }
{
    (orders[i] + 1) as usize
}

pub fn first_column(degrees: &[i32], i: usize) -> usize
    requires { (i ≤ length degrees.now) × ((length degrees.now ≤ segment_limit) × DegreesLegal degrees.now) }
    ensures { result ≡ first_column (space [] degrees.now []) i }
{
    let mut column = 0;
    for k in 0..i {
        column += degree_at(degrees, k) + 1;
    }
    column
}

// The number of conditions at the joins before join i.
fn conditions_before(orders: &[i32], i: usize) -> usize
    requires { (i ≤ length orders.now) × ((length orders.now ≤ segment_limit) × OrdersLegal orders.now) }
    ensures { result ≡ conditions_before (space [] [] orders.now) i }
{
    let mut count = 0;
    for k in 0..i {
        count += condition_count(orders, k);
    }
    count
}

// The number of weights' rows after the last step of the build, and so of coefficients.
pub fn row_count(degrees: &[i32], orders: &[i32]) -> usize
    requires { JoinsLegal degrees.now orders.now }
    ensures { result ≡ row_count (space [] degrees.now orders.now) }
{
    let columns = first_column(degrees, degrees.len());
    let conditions = conditions_before(orders, orders.len());
    columns - conditions
}
