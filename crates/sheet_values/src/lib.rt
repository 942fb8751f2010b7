// The n line and the v lines, into a lent buffer. Each function writes its text from an index on, as far as the buffer reaches, and
// answers the index after it. The limits on the index keep every sum from overflowing; a caller's limit is below its callees'.
#![tactic(auto)]

ghost use Rattle.std.specs.Prelude.{◌≡◌, ◌*◌, ◌^◌, ◌≤◌, length};
ghost use Rattle.base_print.specs.Buffer.{Puts};
ghost use Rattle.spec_sheet.specs.Printout.{count_line, value_line, value_lines};
ghost use Rattle.spec_sheet.specs.Pairs.{paired, ValuesAsk};
ghost use Rattle.sheet_values.specs.Printed.{count_line_limit, value_line_limit};

// n=rows
pub fn put_count(out: &mut [u8], at: usize, n: usize) -> usize
    requires { at ≤ 2 ^ 42 }
    ensures { Puts count_line_limit at (count_line n) out.old out.new result }
{
    let a = base_print::put_text(out, at, b"n=");
    let b = base_print::put_digits(out, a, n as u64);
    base_print::put(out, b, 10)
}

// v=position,earlywood:latewood
fn put_value(out: &mut [u8], at: usize, x: i32, early: i32, late: i32) -> usize
    requires { at ≤ 2 ^ 42 }
    ensures { Puts value_line_limit at (value_line x (record { early = early; late = late })) out.old out.new result }
{
    let a = base_print::put_text(out, at, b"v=");
    let b = base_print::put_decimal(out, a, x as i64);
    let c = base_print::put(out, b, b',');
    let d = base_print::put_decimal(out, c, early as i64);
    let e = base_print::put(out, d, b':');
    let f = base_print::put_decimal(out, e, late as i64);
    base_print::put(out, f, 10)
}

// A line for each position with its two values, which stand side by side in the list.
pub fn put_values(out: &mut [u8], at: usize, positions: &[i32], values: &[i32]) -> usize
    requires { ValuesAsk at positions.now values.now }
    ensures { Puts (value_line_limit * length positions.now) at
        (value_lines positions.now (paired values.now)) out.old out.new result }
{
    let mut next = at;
    for (k, x) in positions.iter().enumerate() {
        let early = values[2 * k];
        let late = values[2 * k + 1];
        next = put_value(out, next, *x, early, late);
    }
    next
}
