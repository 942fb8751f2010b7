// Fractions in two arrays: one for each row of a table. An array by value costs no lent buffer, and its unused places are 0/1.
ghost use Rattle.std.specs.Prelude.{◌≡◌, List, [], ◌<◌};
ghost use Rattle.base_exact.specs.Rational.{ℚ};
ghost use Rattle.base_fraction.specs.Machine.{fraction};
ghost use Rattle.base_fraction.specs.Fractions.{row_cells, fraction_at, fractions};

use crate::Fraction;

// How many fractions an array holds: `row_cells` of specs/Fractions.
pub const ROW_CELLS: usize = 72;

#[derive(Clone, Copy)]
pub struct Fractions {
    pub num: [i64; ROW_CELLS],
    pub den: [i64; ROW_CELLS],
}

pub fn no_fractions() -> Fractions
    ensures { result ≡ fractions [] }
{
    Fractions {
        num: [0; ROW_CELLS],
        den: [1; ROW_CELLS],
    }
}

// The fraction at index i of the two arrays. They are lent, because a struct that is given to a call is copied.
pub fn fraction_at<'a>(num: &'a [i64; ROW_CELLS], den: &'a [i64; ROW_CELLS], i: usize) -> Fraction
    requires { i < row_cells }
    ensures { (of : List ℚ) → record { num = num.entry.now; den = den.now } ≡ fractions of
        → result ≡ fraction (fraction_at of i) }
{
    let n = num[i];
    let d = den[i];
    Fraction { num: n, den: d }
}
