// The rate of a position in its segment, u / d as two whole numbers, by products alone: from the inverse of d, which all positions of
// the segment share. A rate gives the nearest number to its product with a rise, which is what a blend asks.
#![tactic(auto)]

ghost use Rattle.std.specs.Prelude.{◌≡◌, ◌^◌, ℤ, nat_abs, ◌*ℤ◌};
ghost use Rattle.base_exact.specs.Floor.{floor_div, nearest};
ghost use Rattle.curve_rate.specs.Rate.{whole_of, tail_of, Length, Rated, RateAsks, CarryAsks, ShareAsks, RateIs};

// The inverse of a length counts 2^62ths and 2^29ths of them, a rate 2^33ths and 2^29ths of them: these are 2^62 and 2^29, and the
// bits of 2^33 and 2^29.
const UNIT: i64 = 4611686018427387904;

const FINE: i64 = 536870912;

const HIGH_BITS: u32 = 33;

const FINE_BITS: u32 = 29;

// Half of 2^33, and 2^12 for what a rate lacks.
const HALF: i64 = 4294971392;

// u / d as two whole numbers: 2^33ths, and 29 bits more.
#[derive(Clone, Copy)]
pub struct Rate {
    pub high: i64,
    pub low: i64,
}

// 2^62 / d, rounded down.
pub fn whole_of(d: i64) -> i64
    requires { Length d }
    ensures { result ≡ whole_of d }
{
    UNIT / d
}

// 29 bits more of 2^62 / d.
pub fn tail_of(d: i64) -> i64
    requires { Length d }
    ensures { result ≡ tail_of d }
{
    let whole = whole_of(d);
    let rest = UNIT - whole * d;
    rest * FINE / d
}

// A number of 2^29ths times a rise or an offset, rounded down.
fn carried(rise: i64, low: i64) -> i64
    requires { CarryAsks rise low }
    ensures { result ≡ floor_div (rise *ℤ low) (2 ^ 29) }
{
    (rise * low) >> FINE_BITS
}

// By products, in place of a division for each position or blend.
pub fn rate_of(u: i64, whole: i64, tail: i64) -> Rate
    requires { RateAsks u whole tail }
    ensures { RateIs u whole tail result.high result.low }
{
    let more = carried(u, tail);
    let total = u * whole + more;
    let high = total >> FINE_BITS;
    let low = total - high * FINE;
    Rate {
        high: high,
        low: low,
    }
}

// The nearest number to the rise times u / d, by products and shifts.
pub fn share_of(rise: i64, high: i64, low: i64) -> i64
    requires { ShareAsks rise high low }
    ensures { (u d : ℤ) → Rated high low u d → result ≡ nearest (u *ℤ rise) (nat_abs d) }
{
    let tail = carried(rise, low);
    (rise * high + tail + HALF) >> HIGH_BITS
}
