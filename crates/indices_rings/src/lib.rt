// The rings by the value cells: code 14 at the first ring that it refuses, and the index of each.
#![tactic(auto)]

ghost use Rattle.std.specs.Prelude.{◌≡◌, ◌++◌, length, drop};
ghost use Rattle.base_exact.specs.Tabulate.{tab};
ghost use Rattle.base_outcome.specs.Search;
ghost use Rattle.base_outcome.specs.Machine.{found};
ghost use Rattle.indices_rings.specs.Cells.{bad_cell, cell_index, RingAt, GoodRing, RingsAt, GoodRings};

// The values' units, and 1,000 for three decimals.
const INDEX_SCALE: i64 = base_outcome::limits::WIDE_FINENESS * 1000;

// Code 14 of one ring.
fn ring_is_bad(widths: &[i32], values: &[i32], offset: usize, i: usize) -> bool
    requires { RingAt widths.now values.now offset i }
    ensures { result ≡ bad_cell widths.now values.now offset i }
{
    let width = widths[i];
    if width < 0 {
        return true;
    }
    if width > base_outcome::limits::WIDTH_LIMIT {
        return true;
    }
    if width == 0 {
        return false;
    }
    let value = values[2 * i + offset];
    value <= 0
}

pub fn first_bad_ring(widths: &[i32], values: &[i32], offset: usize) -> Option<usize>
    requires { RingsAt widths.now values.now offset }
    ensures { result ≡ found (Search.first (length widths.now)
        (bad_cell widths.now values.now offset)) }
{
    (0..widths.len()).find(|&i| ring_is_bad(widths, values, offset, i))
}

// The index of one ring that passed code 14.
fn index(widths: &[i32], values: &[i32], offset: usize, i: usize) -> i64
    requires { GoodRing widths.now values.now offset i }
    ensures { result ≡ cell_index widths.now values.now offset i }
{
    let width = widths[i];
    if width == 0 {
        return -1;
    }
    let value = values[2 * i + offset];
    let dividend = INDEX_SCALE * (width as i64);
    // Both are above zero, so that the quotient towards zero is the floor.
    dividend / (value as i64)
}

// The indices of all rings, none of which is refused.
pub fn write_indices(widths: &[i32], values: &[i32], offset: usize, indices: &mut [i64])
    requires { GoodRings widths.now values.now offset indices.old }
    ensures { indices.new ≡ tab (length widths.now) (cell_index widths.now values.now offset)
        ++ drop (length widths.now) indices.old }
{
    for i in 0..widths.len() {
        indices[i] = index(widths, values, offset, i);
    }
}
