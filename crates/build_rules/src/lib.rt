// The rules that the entries of the three lists keep, and the first entry that breaks one: the refusals 3 to 5 and 15, unnumbered.
#![tactic(auto)]

ghost use Rattle.std.specs.Prelude.{◌≡◌, [], ◌+◌, ◌<◌, ◌≤◌, length};
ghost use Rattle.base_outcome.specs.Search.{first};
ghost use Rattle.base_outcome.specs.Machine.{found};
ghost use Rattle.spec_spline.specs.Space.{bad_break, bad_degree, bad_order, span_too_long, too_many_segments};
ghost use Rattle.build_space.specs.Machine.{space};
ghost use Rattle.build_rules.specs.Rules.{broken, entries};

const PART_SEGMENT_LIMIT: usize = 12;

const BREAK_LIMIT: i32 = 10000;

const SPAN_LIMIT: i64 = 2000;

const DEGREE_LIMIT: i32 = 5;

const ORDER_LIMIT: i32 = 2;

// What is asked of a breakpoint, of the span of a part, of a degree, of an order and of the number of segments in a part.
#[derive(Clone, Copy)]
pub enum Rule {
    Breakpoint,
    Span,
    Degree,
    Order,
    Segments,
}

fn break_is_bad(breaks: &[i32], i: usize) -> bool
    requires { i < length breaks.now }
    ensures { result ≡ bad_break (space breaks.now [] []) i }
{
    let x = breaks[i];
    if x < 0 - BREAK_LIMIT {
        return true;
    }
    if x > BREAK_LIMIT {
        return true;
    }
    if i == 0 {
        return false;
    }
    let before = breaks[i - 1];
    x <= before
}

// Whether segment i starts a part whose last breakpoint is too far from its first.
fn span_is_too_long(breaks: &[i32], degrees: &[i32], orders: &[i32], i: usize) -> bool
    requires { (i < length degrees.now) × ((length degrees.now ≡ length orders.now + 1)
        × (length breaks.now ≡ length degrees.now + 1)) }
    ensures { result ≡ span_too_long (space breaks.now degrees.now orders.now) i }
{
    if !build_space::starts_part(orders, i) {
        return false;
    }
    let end = build_space::part_end(degrees, orders, i);
    let first = breaks[i] as i64;
    let last = breaks[end] as i64;
    last - first > SPAN_LIMIT
}

fn degree_is_bad(degrees: &[i32], i: usize) -> bool
    requires { i < length degrees.now }
    ensures { result ≡ bad_degree (space [] degrees.now []) i }
{
    let p = degrees[i];
    if p < 1 {
        return true;
    }
    p > DEGREE_LIMIT
}

fn order_is_bad(degrees: &[i32], orders: &[i32], i: usize) -> bool
    requires { (i < length orders.now) × (length degrees.now ≡ length orders.now + 1) }
    ensures { result ≡ bad_order (space [] degrees.now orders.now) i }
{
    let r = orders[i];
    if r < -1 {
        return true;
    }
    if r > ORDER_LIMIT {
        return true;
    }
    let p = degrees[i];
    if p <= r {
        return true;
    }
    let q = degrees[i + 1];
    q <= r
}

// Whether segment i starts a part of too many segments.
fn part_is_too_long(degrees: &[i32], orders: &[i32], i: usize) -> bool
    requires { (i < length degrees.now) × (length degrees.now ≡ length orders.now + 1) }
    ensures { result ≡ too_many_segments (space [] degrees.now orders.now) i }
{
    if !build_space::starts_part(orders, i) {
        return false;
    }
    let end = build_space::part_end(degrees, orders, i);
    end - i > PART_SEGMENT_LIMIT
}

// Whether entry i breaks the rule.
fn is_broken(rule: Rule, breaks: &[i32], degrees: &[i32], orders: &[i32], i: usize) -> bool
    requires degrees_len { (length degrees.now ≡ length orders.now + 1) × (length breaks.now ≡ length degrees.now + 1) }
    requires i_bound { i < entries rule (space breaks.now degrees.now orders.now) }
    ensures { result ≡ broken rule (space breaks.now degrees.now orders.now) i }
{
    match rule {
        Rule::Breakpoint => break_is_bad(breaks, i),
        Rule::Span => span_is_too_long(breaks, degrees, orders, i),
        Rule::Degree => degree_is_bad(degrees, i),
        Rule::Order => order_is_bad(degrees, orders, i),
        Rule::Segments => part_is_too_long(degrees, orders, i),
    }
}

// The first of the n entries that breaks the rule.
pub fn first_bad(
    rule: Rule,
    breaks: &[i32],
    degrees: &[i32],
    orders: &[i32],
    n: usize,
) -> Option<usize>
    requires degrees_len { (length degrees.now ≡ length orders.now + 1) × (length breaks.now ≡ length degrees.now + 1) }
    requires n_bound { n ≤ entries rule (space breaks.now degrees.now orders.now) }
    ensures { result ≡ found (first n (broken rule (space breaks.now degrees.now orders.now))) }
{
    (0..n).find(|&i| is_broken(rule, breaks, degrees, orders, i))
}
