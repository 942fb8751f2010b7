// The w lines, into a lent buffer. Each function writes its text from an index on, as far as the buffer reaches, and
// answers the index after it. The limits on the index keep every sum from overflowing; a caller's limit is below its callees'.
#![tactic(auto)]

ghost use Rattle.std.specs.Prelude.{◌≡◌, ◌*◌, ◌^◌, ◌≤◌, nat_abs};
ghost use Rattle.spec_spline.specs.Table.{row_cells};
ghost use Rattle.base_print.specs.Buffer.{Puts};
ghost use Rattle.spec_sheet.specs.Printout.{weight_lines};
ghost use Rattle.sheet_weights.specs.Printed.{weight_line_limit, place_text, fraction_text, stored_weight, stored_weights};
ghost use Rattle.sheet_weights.specs.Printed.{CellAsks, RowsAsk};

// w=row,column,
fn put_place(out: &mut [u8], at: usize, i: usize, c: usize) -> usize
    requires { at ≤ 2 ^ 43 }
    ensures { Puts 44 at (place_text i c) out.old out.new result }
{
    let a = base_print::put_text(out, at, b"w=");
    let b = base_print::put_digits(out, a, i as u64);
    let d = base_print::put(out, b, b',');
    let e = base_print::put_digits(out, d, c as u64);
    base_print::put(out, e, b',')
}

// numerator/denominator
fn put_fraction(out: &mut [u8], at: usize, num: i64, den: i64) -> usize
    requires { at ≤ 2 ^ 43 }
    ensures { Puts 43 at (fraction_text num (nat_abs den)) out.old out.new result }
{
    let size = base_division::magnitude(den);
    let a = base_print::put_decimal(out, at, num);
    let b = base_print::put(out, a, b'/');
    let c = base_print::put_digits(out, b, size);
    base_print::put(out, c, 10)
}

// The line of the weight in cell k, unless it is zero: rows and columns are counted from those of cell 0 on.
fn put_cell(
    out: &mut [u8],
    at: usize,
    row: usize,
    column: usize,
    k: usize,
    num: i64,
    den: i64,
) -> usize
    requires { CellAsks at row column k }
    ensures { Puts weight_line_limit at (weight_lines (stored_weight row column k num den)) out.old out.new result }
{
    if num == 0 {
        return at;
    }
    let a = put_place(
        out,
        at,
        row + k / build_cells::ROW_CELLS,
        column + k % build_cells::ROW_CELLS,
    );
    put_fraction(out, a, num, den)
}

// The lines of the non-zero weights of the first n rows of the cells, which are a table's rows and columns from these on.
pub fn put_weights(
    out: &mut [u8],
    at: usize,
    row: usize,
    column: usize,
    n: usize,
    num: &[i64],
    den: &[i64],
) -> usize
    requires { RowsAsk at row column n num.now den.now }
    ensures { Puts (weight_line_limit * (row_cells * n)) at
        (weight_lines (stored_weights row column (row_cells * n) num.now den.now)) out.old out.new
        result }
{
    let cells = build_cells::ROW_CELLS * n;
    let mut next = at;
    for k in 0..cells {
        next = put_cell(out, next, row, column, k, num[k], den[k]);
    }
    next
}
