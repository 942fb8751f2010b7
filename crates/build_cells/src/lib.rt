// The two lent buffers: row i, column j of the table is cell 72 i + j of the numerators and of the denominators.
#![tactic(auto)]

ghost use Rattle.std.specs.Prelude.{◌≡◌, ◌<◌, ◌≤◌, pos, length, get_or};
ghost use Rattle.build_cells.specs.Region.{filled};

use base_fraction::Fraction;

// Cells of a row.
pub const ROW_CELLS: usize = base_fraction::arrays::ROW_CELLS;

// Cells of a table.
pub const TABLE_CELLS: usize = ROW_CELLS * ROW_CELLS;

// One number in the cells of a buffer from the one index up to the other. A `fill` for each buffer: the compiler makes wide stores
// of a loop that writes one number to one place after another, and of two such rows of places in one loop it makes slower ones.
fn fill(cells: &mut [i64], value: i64, from: usize, to: usize)
    requires { (from ≤ to) × (to ≤ length cells.old) }
    ensures { cells.new ≡ filled from to value cells.old }
{
    cells[from..to].fill(value);
}

// 0/1 in the cells from the one index up to the other.
pub fn clear(num: &mut [i64], den: &mut [i64], from: usize, to: usize)
    requires { (from ≤ to) × ((to ≤ length num.old) × (to ≤ length den.old)) }
    ensures num_after { num.new ≡ filled from to (pos 0) num.old }
    ensures den_after { den.new ≡ filled from to (pos 1) den.old }
{
    fill(num, 0, from, to);
    fill(den, 1, from, to);
}

// The fraction in cell k.
pub fn read(num: &[i64], den: &[i64], k: usize) -> Fraction
    requires { (k < length num.now) × (k < length den.now) }
    ensures { (result.num ≡ get_or num.now k (pos 0)) × (result.den ≡ get_or den.now k (pos 0)) }
{
    let n = num[k];
    let d = den[k];
    Fraction { num: n, den: d }
}
