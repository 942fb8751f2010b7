// The table in the two lent buffers: the identity, whole and as rows that come after those of a table, and a row left out.
#![tactic(auto)]

ghost use Rattle.std.specs.Prelude.{◌≡◌, ◌++◌, ℕ, ◌+◌, ◌*◌, ◌<◌, ◌≤◌, suc, pos, length, take, drop};
ghost use Rattle.spec_spline.specs.Table;
ghost use Rattle.build_cells.specs.Held.{ClearFrom, Holds};
ghost use Rattle.build_cells.specs.Region.{filled, marked, diagonal_step, moved};

// From one place of the diagonal to the next: a row and a cell.
const DIAGONAL_STEP: usize = build_cells::ROW_CELLS + 1;

// 0/1 in the first rows. Of all rows the compiler knows the count of cells, and makes longer runs of wide stores.
fn clear_rows(num: &mut [i64], den: &mut [i64], rows: usize)
    requires { (rows ≤ Table.row_cells) × ((Table.table_cells ≤ length num.old) × (Table.table_cells ≤ length den.old)) }
    ensures num_after { num.new ≡ filled 0 (Table.row_cells * rows) (pos 0) num.old }
    ensures den_after { den.new ≡ filled 0 (Table.row_cells * rows) (pos 1) den.old }
{
    if rows == build_cells::ROW_CELLS {
        build_cells::clear(num, den, 0, build_cells::TABLE_CELLS);
        return;
    }
    build_cells::clear(num, den, 0, build_cells::ROW_CELLS * rows);
}

// 1 at the first n places of the diagonal.
fn mark_diagonal(num: &mut [i64], n: usize)
    requires { (n ≤ Table.row_cells) × (diagonal_step * n ≤ length num.old + Table.row_cells) }
    ensures { num.new ≡ marked n num.old }
{
    for i in 0..n {
        num[DIAGONAL_STEP * i] = 1;
    }
}

// The identity with n rows and columns, in buffers that are clear from row `used` on: only the rows before it are cleared.
pub fn identity_over(num: &mut [i64], den: &mut [i64], n: usize, used: usize)
    requires n_bound { (n ≤ Table.row_cells) × ((Table.table_cells ≤ length num.old) × (Table.table_cells ≤ length den.old)) }
    requires used_bound { (used ≤ Table.row_cells) × ClearFrom num.old den.old used }
    ensures num_after { num.new ≡ Table.numerators (Table.identity n) num.old }
    ensures den_after { den.new ≡ Table.denominators (Table.identity n) den.old }
{
    clear_rows(num, den, used);
    mark_diagonal(num, n);
}

// The identity with n rows and columns, in buffers that hold anything.
pub fn identity(num: &mut [i64], den: &mut [i64], n: usize)
    requires { (n ≤ Table.row_cells) × ((Table.table_cells ≤ length num.old) × (Table.table_cells ≤ length den.old)) }
    ensures num_after { num.new ≡ Table.numerators (Table.identity n) num.old }
    ensures den_after { den.new ≡ Table.denominators (Table.identity n) den.old }
{
    identity_over(num, den, n, build_cells::ROW_CELLS);
}

// After the rows that the table has come those of the identity for n columns from the given one on.
pub fn add_rows(num: &mut [i64], rows: usize, column: usize, n: usize)
    requires { (0 < n) × ((rows + n ≤ Table.row_cells) × ((column + n ≤ Table.row_cells) × (Table.table_cells ≤ length num.old))) }
    ensures { (t : Table.Table) (m : ℕ) → num.old ≡ Table.numerators t num.old → length t ≡ rows
        → column + n ≤ m
        → num.new ≡ Table.numerators (t ++ take n (drop column (Table.identity m))) num.old }
{
    let start = build_cells::ROW_CELLS * rows + column;
    mark_diagonal(&mut num[start..], n);
}

// The cells from the one index up to the other take what stands a row further on.
fn move_up(num: &mut [i64], den: &mut [i64], from: usize, to: usize)
    requires { (from ≤ to) × ((to + Table.row_cells ≤ length num.old) × (to + Table.row_cells ≤ length den.old)) }
    ensures num_after { num.new ≡ moved from to num.old }
    ensures den_after { den.new ≡ moved from to den.old }
{
    let start = from + build_cells::ROW_CELLS;
    let end = to + build_cells::ROW_CELLS;
    num.copy_within(start..end, from);
    den.copy_within(start..end, from);
}

// Row l is left out: the rows after it move up, and the last row becomes 0/1.
pub fn drop_row(num: &mut [i64], den: &mut [i64], l: usize, rows: usize)
    requires { (l < rows)
        × ((rows ≤ Table.row_cells) × ((Table.table_cells ≤ length num.old) × (Table.table_cells ≤ length den.old))) }
    ensures { (t : Table.Table) → Holds num.old den.old t → length t ≡ rows
        → (num.new ≡ Table.numerators (take l t ++ drop (suc l) t) num.old)
        × (den.new ≡ Table.denominators (take l t ++ drop (suc l) t) den.old) }
{
    let start = build_cells::ROW_CELLS * l;
    let end = build_cells::ROW_CELLS * (rows - 1);
    move_up(num, den, start, end);
    build_cells::clear(num, den, end, end + build_cells::ROW_CELLS);
}
