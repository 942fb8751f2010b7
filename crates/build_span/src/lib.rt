// The rows that the jumps of a step span: from the first to the last jump other than zero, if there is no zero between them.
#![tactic(auto)]

ghost use Rattle.std.specs.Prelude.{◌≡◌, List, ℕ, ◌<◌, ◌≤◌, length, Some};
ghost use Rattle.base_exact.specs.Rational.{ℚ};
ghost use Rattle.base_outcome.specs.Search;
ghost use Rattle.spec_spline.specs.Table.{row_cells};
ghost use Rattle.spec_spline.specs.Step;
ghost use Rattle.base_outcome.specs.Machine.{found};
ghost use Rattle.base_fraction.specs.Fractions.{fractions};
ghost use Rattle.build_span.specs.Machine.{jump_span};

use base_fraction::arrays::Fractions;

// The first and the last row with a jump other than zero.
#[derive(Clone, Copy)]
pub struct JumpSpan {
    pub f: usize,
    pub l: usize,
}

// The first row below `rows` with a jump other than zero, by the numerators.
fn first_jump(js: &[i64; base_fraction::arrays::ROW_CELLS], rows: usize) -> Option<usize>
    requires { rows ≤ row_cells }
    ensures { (qs : List ℚ) → js.now ≡ (fractions qs).num → result ≡ found (Search.first rows (Step.jumps_at qs)) }
{
    let mut i: usize = 0;
    // A `loop` that yields the row by break, or none: a form that is asked for (docs/DECISIONS.md, Forms).
    let at = loop {
        if i == rows {
            break None;
        }
        if js[i] != 0 {
            break Some(i);
        }
        i += 1;
    };
    at
}

// The last row below `rows` with a jump other than zero.
fn last_jump(js: &[i64; base_fraction::arrays::ROW_CELLS], rows: usize) -> Option<usize>
    requires { rows ≤ row_cells }
    ensures value { (qs : List ℚ) → js.now ≡ (fractions qs).num → result ≡ found (Search.last rows (Step.jumps_at qs)) }
    ensures by_index { (i : ℕ) → result ≡ Some i → i < rows }
{
    let mut i = rows;
    // A `loop` that yields the row by break, or none: a form that is asked for (docs/DECISIONS.md, Forms).
    let at = loop {
        if i == 0 {
            break None;
        }
        i -= 1;
        if js[i] != 0 {
            break Some(i);
        }
    };
    at
}

// Whether a jump from row f up to row l is zero.
fn zero_between(js: &[i64; base_fraction::arrays::ROW_CELLS], f: usize, l: usize) -> bool
    requires { l ≤ row_cells }
    ensures { (qs : List ℚ) → js.now ≡ (fractions qs).num → result ≡ Step.zero_between qs f l }
{
    for i in f..l {
        if js[i] == 0 {
            return true;
        }
    }
    false
}

// The rows that the jumps span, if there is no zero between them.
pub fn span(js: Fractions, rows: usize) -> Option<JumpSpan>
    requires { rows ≤ row_cells }
    ensures { (qs : List ℚ) (j : ℕ) → js ≡ fractions qs → length qs ≡ rows → result ≡ jump_span (Step.span j qs) }
{
    let f = first_jump(&js.num, rows)?;
    let l = last_jump(&js.num, rows)?;
    if zero_between(&js.num, f, l) {
        return None;
    }
    Some(JumpSpan { f, l })
}
