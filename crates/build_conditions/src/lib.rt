// The column of conditions of a join and an order, as its few non-zero entries.
#![tactic(auto)]

ghost use Rattle.std.specs.Prelude.{◌≡◌, ℕ, ◌+◌, ◌*◌, ◌<◌};
ghost use Rattle.spec_spline.specs.Space.{Space};
ghost use Rattle.spec_spline.specs.Conditions;
ghost use Rattle.spec_spline.specs.Table.{row_cells};
ghost use Rattle.build_conditions.specs.Sides.{JoinIs, JoinFits};
ghost use Rattle.build_conditions.specs.Terms.{scale_of, entries_of, ScaledOf, ConditionAsks, column_of};

// One side of a join: the degree, length and first column of its segment.
#[derive(Clone, Copy)]
pub struct Side {
    pub degree: usize,
    pub length: i64,
    pub column: usize,
}

#[derive(Clone, Copy)]
pub struct Join {
    pub left: Side,
    pub right: Side,
}

// The scales on the two sides of a join before the binomials, without common divisor.
#[derive(Clone, Copy)]
pub struct Scaled {
    pub left: i64,
    pub right: i64,
}

fn scales(join: Join, k: usize) -> Scaled
    requires { JoinFits join k }
    ensures { (s : Space) (j : ℕ) → JoinIs join s j → ScaledOf result s j k }
{
    let l = join.left;
    let r = join.right;
    let left = build_scales::scale(l.degree, k, r.length);
    let right = build_scales::scale(r.degree, k, l.length);
    let divisor = base_division::gcd(left as u64, right as u64) as i64;
    Scaled {
        left: left / divisor,
        right: right / divisor,
    }
}

// Entry e of the column: k + 1 on the left, then k + 1 on the right.
fn entry(sides: Scaled, k: usize, e: usize) -> i64
    requires { ConditionAsks sides k e }
    ensures { result ≡ scale_of sides.left sides.right k e }
{
    if e <= k {
        let b = build_scales::signed_binomial(k, e);
        return sides.left * b;
    }
    let c = build_scales::signed_binomial(k, e - k - 1);
    0 - sides.right * c
}

// The entries of the column for order k, 0 past their number.
pub fn entries(join: Join, k: usize) -> [i64; 6]
    requires { JoinFits join k }
    ensures { (s : Space) (j : ℕ) → JoinIs join s j → result ≡ entries_of (Conditions.conditions s j k) }
{
    let s = scales(join, k);
    let mut values = [0; 6];
    for e in 0..2 * k + 2 {
        values[e] = entry(s, k, e);
    }
    values
}

// The column of entry e.
pub fn column(join: Join, k: usize, e: usize) -> usize
    requires { JoinFits join k × (e < 2 * k + 2) }
    ensures { ((s : Space) (j : ℕ) → JoinIs join s j → (result ≡ column_of (Conditions.conditions s j k) e)) × (result < row_cells) }
{
    if e <= k {
        let left = join.left;
        return left.column + (left.degree - k + e);
    }
    let right = join.right;
    right.column + (e - k - 1)
}
