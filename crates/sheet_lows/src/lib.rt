// The low lines, into a lent buffer. Each function writes its text from an index on, as far as the buffer reaches, and
// answers the index after it. The limits on the index keep every sum from overflowing; a caller's limit is below its callees'.
#![tactic(auto)]

ghost use Rattle.std.specs.Prelude.{◌≡◌, ◌*◌, ◌/◌, ◌^◌, ◌≤◌, length, take};
ghost use Rattle.spec_spline.specs.CurveCall.{position_limit};
ghost use Rattle.base_print.specs.Buffer.{Puts};
ghost use Rattle.base_sorting.specs.Sorted.{sorted};
ghost use Rattle.spec_sheet.specs.Printout.{is_low, low_line, low_lines, low_positions};
ghost use Rattle.spec_sheet.specs.Pairs.{paired, ValuesAsk};
ghost use Rattle.sheet_lows.specs.Printed.{low_line_limit};

use base_outcome::limits;

// low=position
fn put_low_line(out: &mut [u8], at: usize, x: i32) -> usize
    requires { at ≤ 2 ^ 42 }
    ensures { Puts low_line_limit at (low_line x) out.old out.new result }
{
    let a = base_print::put_text(out, at, b"low=");
    let b = base_print::put_decimal(out, a, x as i64);
    base_print::put(out, b, 10)
}

// Whether either value is zero or less.
fn is_low(early: i32, late: i32) -> bool
    ensures { result ≡ is_low (record { early = early; late = late }) }
{
    early <= 0 || late <= 0
}

// The low positions, in list order, at the start of the lent list, and their count. Every position is stored, and counted if
// it is low.
fn low_positions(positions: &[i32], values: &[i32], lows: &mut [i32]) -> usize
    requires { (length positions.now ≤ length values.now / 2) × (length positions.now ≤ length lows.old) }
    ensures value { result ≡ length (low_positions positions.now (paired values.now)) }
    ensures lows_after { take result lows.new ≡ low_positions positions.now (paired values.now) }
{
    let mut count = 0;
    for (k, x) in positions.iter().enumerate() {
        lows[count] = *x;
        if is_low(values[2 * k], values[2 * k + 1]) {
            count += 1;
        }
    }
    count
}

// A low line for each of these positions.
fn put_low_lines(out: &mut [u8], at: usize, lows: &[i32]) -> usize
    requires { (at ≤ 2 ^ 41) × (length lows.now ≤ position_limit) }
    ensures { Puts (low_line_limit * length lows.now) at (low_lines lows.now) out.old out.new
        result }
{
    let mut next = at;
    for x in lows {
        next = put_low_line(out, next, *x);
    }
    next
}

// A low line for each entry with a value of zero or less, by rising position.
pub fn put_lows(out: &mut [u8], at: usize, positions: &[i32], values: &[i32]) -> usize
    requires { ValuesAsk at positions.now values.now }
    ensures { Puts (low_line_limit * length positions.now) at
        (low_lines (sorted (low_positions positions.now (paired values.now)))) out.old out.new
        result }
{
    let mut lows = [0; limits::POSITION_LIMIT];
    let count = low_positions(positions, values, &mut lows);
    base_sorting::sort(&mut lows, count);
    put_low_lines(out, at, &lows[..count])
}
