// The values at one position: its location and its rate, found once for both woods, and for each wood the segment's ordinates and
// the de Casteljau triangle on them. A rate takes the inverse of the segment's length, worked out once a call.
#![tactic(auto)]

ghost use Rattle.std.specs.Prelude.{◌≡◌, [], ◌+◌, ◌<◌, ◌≤◌, pos, length};
ghost use Rattle.build_space.specs.Machine.{space};
ghost use Rattle.spec_spline.specs.Reading;
ghost use Rattle.curve_places.specs.Offsets.{local_of, BreakAt};
ghost use Rattle.curve_places.specs.Inverses.{wholes_of, tails_of, InversesAsk};
ghost use Rattle.curve_places.specs.Location.{value_of, LocationAsks, LocationIs, ValueAsks, ValueIs, ValueAtAsks, PairAsks, PairIs};

use base_outcome::limits;

// Where a position lies: its segment's first column and degree, how far past the segment's start it is and how long the
// segment is, both in 256ths of a ring.
#[derive(Clone, Copy)]
pub struct Location {
    pub column: usize,
    pub degree: usize,
    pub offset: i64,
    pub width: i64,
}

// The values of both woods at a position.
#[derive(Clone, Copy)]
pub struct Pair {
    pub early: i32,
    pub late: i32,
}

// Six columns for each of the most segments.
pub const COLUMN_LIMIT: usize = 6 * build_space::SEGMENT_LIMIT;

// The p + 1 ordinates from column c on, 0 past them.
fn local_ordinates(ordinates: &[i32], c: usize, p: usize) -> [i64; 6]
    requires { (p ≤ 5) × (c + p < length ordinates.now) }
    ensures { result ≡ local_of ordinates.now c p }
{
    let mut o = [0; 6];
    for k in 0..p + 1 {
        o[k] = ordinates[c + k] as i64;
    }
    o
}

// The length of segment i, in 256ths of a ring.
pub fn fine_width(breaks: &[i32], i: usize) -> i64
    requires { BreakAt breaks.now (i + 1) }
    ensures { result ≡ pos (Reading.fine_width (space breaks.now [] []) i) }
{
    let length = build_space::segment_length(breaks, i);
    limits::WIDE_FINENESS * length
}

// The inverses of the lengths of the segments, rounded down.
pub fn inverse_wholes(breaks: &[i32], degrees: &[i32]) -> [i64; build_space::SEGMENT_LIMIT]
    requires { InversesAsk breaks.now degrees.now }
    ensures { result ≡ wholes_of (space breaks.now degrees.now []) }
{
    let mut wholes = [0; build_space::SEGMENT_LIMIT];
    for k in 0..degrees.len() {
        wholes[k] = curve_rate::whole_of(fine_width(breaks, k));
    }
    wholes
}

// What these lack, in 2^29ths.
pub fn inverse_tails(breaks: &[i32], degrees: &[i32]) -> [i64; build_space::SEGMENT_LIMIT]
    requires { InversesAsk breaks.now degrees.now }
    ensures { result ≡ tails_of (space breaks.now degrees.now []) }
{
    let mut tails = [0; build_space::SEGMENT_LIMIT];
    for k in 0..degrees.len() {
        tails[k] = curve_rate::tail_of(fine_width(breaks, k));
    }
    tails
}

// How far position x lies past the start of segment i.
fn offset(breaks: &[i32], i: usize, x: i32) -> i64
    requires { BreakAt breaks.now i }
    ensures { result ≡ Reading.offset (space breaks.now [] []) i x }
{
    let start = breaks[i] as i64;
    x as i64 - limits::WIDE_FINENESS * start
}

// The location of position x, which lies in segment i.
pub fn location_at(breaks: &[i32], degrees: &[i32], columns: &[usize], i: usize, x: i32) -> Location
    requires { LocationAsks breaks.now degrees.now columns.now i x }
    ensures { LocationIs breaks.now degrees.now i x result }
{
    let p = build_space::degree_at(degrees, i);
    let u = offset(breaks, i, x);
    let d = fine_width(breaks, i);
    let c = columns[i];
    Location {
        column: c,
        degree: p,
        offset: u,
        width: d,
    }
}

// The value of the p + 1 ordinates from column c on, at the offset with this rate.
fn value_of(ordinates: &[i32], c: usize, p: usize, high: i64, low: i64) -> i32
    requires { ValueAsks ordinates.now c p high low }
    ensures { ValueIs ordinates.now c p high low result }
{
    let o = local_ordinates(ordinates, c, p);
    let v = curve_triangle::triangle(o, p, high, low);
    v as i32
}

// The same. Each degree has an arm, in which the count of ordinates and of stages is known, so that the ordinates stay in
// registers.
fn value_by(ordinates: &[i32], c: usize, p: usize, high: i64, low: i64) -> i32
    requires { ValueAsks ordinates.now c p high low }
    ensures { ValueIs ordinates.now c p high low result }
{
    match p {
        1 => value_of(ordinates, c, 1, high, low),
        2 => value_of(ordinates, c, 2, high, low),
        3 => value_of(ordinates, c, 3, high, low),
        4 => value_of(ordinates, c, 4, high, low),
        5 => value_of(ordinates, c, 5, high, low),
        _ => value_of(ordinates, c, p, high, low),
    }
}

// The value at a location of the curve with these ordinates.
pub fn value_at(ordinates: &[i32], location: Location) -> i32
    requires { ValueAtAsks ordinates.now location }
    ensures { result ≡ value_of ordinates.now location }
{
    let d = location.width;
    let whole = curve_rate::whole_of(d);
    let tail = curve_rate::tail_of(d);
    let rate = curve_rate::rate_of(location.offset, whole, tail);
    value_by(
        ordinates,
        location.column,
        location.degree,
        rate.high,
        rate.low,
    )
}

// The values of both woods at a location, by one rate, from the inverse of the segment's length. The one blend of degree 1 is made
// here, without a call.
pub fn pair_at(
    earlywood: &[i32],
    latewood: &[i32],
    location: Location,
    whole: i64,
    tail: i64,
) -> Pair
    requires { PairAsks earlywood.now latewood.now location whole tail }
    ensures { PairIs earlywood.now latewood.now location result }
{
    let c = location.column;
    let p = location.degree;
    let rate = curve_rate::rate_of(location.offset, whole, tail);
    let h = rate.high;
    let l = rate.low;
    if p == 1 {
        let first = value_of(earlywood, c, 1, h, l);
        let second = value_of(latewood, c, 1, h, l);
        return Pair {
            early: first,
            late: second,
        };
    }
    let early = value_by(earlywood, c, p, h, l);
    let late = value_by(latewood, c, p, h, l);
    Pair {
        early: early,
        late: late,
    }
}
