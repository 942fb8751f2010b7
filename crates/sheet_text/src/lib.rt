// The sheet: five lines of text in, the printout out, on bytes.
#![tactic(auto)]

ghost use Rattle.std.specs.Prelude.{◌≡◌, ◌≤◌, length};
ghost use Rattle.spec_spline.specs.Build.{space_weights};
ghost use Rattle.spec_spline.specs.CurveCall.{position_limit};
ghost use Rattle.build_space.specs.Machine.{space};
ghost use Rattle.base_print.specs.Buffer.{Puts, Prints};
ghost use Rattle.spec_sheet.specs.Printout.{answer_text};
ghost use Rattle.spec_sheet.specs.Pairs.{paired};
ghost use Rattle.spec_sheet.specs.Sheet.{called_text, printout};
ghost use Rattle.sheet_beam.specs.Beam.{table_of};
ghost use Rattle.sheet_text.specs.Limit.{printout_limit, AnswerAsks};

use base_outcome::{codes, limits};

// The cells of the values' buffer, two for each of the most positions of a call.
const VALUE_CELLS: usize = 2 * limits::POSITION_LIMIT;

// The printout of an answer, from the buffer's start on: the count line, the w lines of the accepted beam whose last part is in
// the two buffers, and the lines of the positions and their values, two a position.
fn put_answer(
    breaks: &[i32],
    degrees: &[i32],
    orders: &[i32],
    n: usize,
    num: &mut [i64],
    den: &mut [i64],
    positions: &[i32],
    values: &[i32],
    out: &mut [u8],
) -> usize
    requires { AnswerAsks (space breaks.now degrees.now orders.now) n num.old den.old positions.now values.now }
    ensures { Puts printout_limit 0 (answer_text (table_of (space_weights
        (space breaks.now degrees.now orders.now))) positions.now
        (paired values.now)) out.old out.new result }
{
    let a = sheet_values::put_count(out, 0, n);
    let b = sheet_beam::put_beam(breaks, degrees, orders, n, num, den, out, a);
    let c = sheet_values::put_values(out, b, positions, values);
    sheet_lows::put_lows(out, c, positions, values)
}

// The curve call on the five lists, the coefficients as the numbers of their pairs side by side, and its printout.
fn run(
    breaks: &[i32],
    degrees: &[i32],
    orders: &[i32],
    coefs: &[i32],
    positions: &[i32],
    out: &mut [u8],
) -> usize
    requires { length positions.now ≤ position_limit }
    ensures { Prints printout_limit (called_text (record {
      breaks = breaks.entry.now;
      degrees = degrees.now;
      orders = orders.now;
      coefs = coefs.now;
      positions = positions.now;
    })) out.old out.new result }
{
    let mut num = [0; build_cells::TABLE_CELLS];
    let mut den = [1; build_cells::TABLE_CELLS];
    let mut values = [0; VALUE_CELLS];
    let answer = curve::curve(
        breaks,
        degrees,
        orders,
        coefs,
        positions,
        &mut num,
        &mut den,
        &mut values,
    );
    match answer {
        Ok(n) => put_answer(
            breaks,
            degrees,
            orders,
            coefs.len() / 2,
            &mut num,
            &mut den,
            positions,
            &values[..2 * n],
            out,
        ),
        Err(refusal) => base_print::refusal(refusal.code, refusal.place, out),
    }
}

// The whole program: the printout of a sheet's text, written into the lent buffer as far as it fits. The answer is the
// printout's length, which no sheet takes past the limit.
pub fn sheet(input: &[u8], out: &mut [u8]) -> usize
    ensures { Prints printout_limit (printout input.now) out.old out.new result }
{
    let mut breaks = [0; sheet_lines::LIST_LIMIT];
    let mut degrees = [0; sheet_lines::LIST_LIMIT];
    let mut orders = [0; sheet_lines::LIST_LIMIT];
    let mut coefs = [0; sheet_read::COEFFICIENT_NUMBERS];
    let mut positions = [0; sheet_lines::LIST_LIMIT];
    let read = sheet_read::read(
        input,
        &mut breaks,
        &mut degrees,
        &mut orders,
        &mut coefs,
        &mut positions,
    );
    match read {
        Ok(n) => run(
            &breaks[..n.breaks],
            &degrees[..n.degrees],
            &orders[..n.orders],
            &coefs[..n.coefs],
            &positions[..n.positions],
            out,
        ),
        Err(place) => base_print::refusal(codes::SHEET_LINE, place, out),
    }
}
