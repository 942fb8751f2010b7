// The coefficients of the rows in their arrays: that of a row dropped, and those of rows that come in.
#![tactic(auto)]

ghost use Rattle.std.specs.Prelude.{◌≡◌, List, ◌++◌, map, suc, ◌+◌, ◌<◌, ◌≤◌, length, take, drop};
ghost use Rattle.base_exact.specs.Rational.{ℚ, int};
ghost use Rattle.spec_spline.specs.Table.{row_cells};
ghost use Rattle.base_fraction.specs.Fractions.{fractions};

use base_fraction::arrays;
use base_fraction::arrays::Fractions;

// The row that comes at index i once row l is dropped.
fn kept_row(i: usize, l: usize) -> usize
    requires { i < row_cells }
    ensures { (i < l → result ≡ i) × (l ≤ i → result ≡ suc i) }
{
    if i < l {
        return i;
    }
    i + 1
}

// The coefficients without that of row l.
pub fn drop_coefficient(cs: Fractions, l: usize, rows: usize) -> Fractions
    requires { (l < rows) × (rows ≤ row_cells) }
    ensures { (ps : List ℚ) → cs ≡ fractions ps → length ps ≡ rows → result ≡ fractions (take l ps ++ drop (suc l) ps) }
{
    let mut left = arrays::no_fractions();
    for i in 0..rows - 1 {
        let from = kept_row(i, l);
        let n = cs.num[from];
        let d = cs.den[from];
        left.num[i] = n;
        left.den[i] = d;
    }
    left
}

// The coefficients of the first `rows` rows, and behind them the ordinates of n columns from the given one on.
pub fn append(cs: Fractions, rows: usize, ordinates: &[i32], column: usize, n: usize) -> Fractions
    requires { (rows + n ≤ row_cells) × (column + n ≤ length ordinates.now) }
    ensures { (ps : List ℚ) → cs ≡ fractions ps → length ps ≡ rows
        → result ≡ fractions (ps ++ map int (take n (drop column ordinates.now))) }
{
    let mut all = cs;
    for i in 0..n {
        let at = rows + i;
        let from = column + i;
        let o = ordinates[from] as i64;
        all.num[at] = o;
        all.den[at] = 1;
    }
    all
}
