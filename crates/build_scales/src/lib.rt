// The numbers that scale a condition: falling factorials, powers of lengths, and binomials with their signs.
#![tactic(auto)]

ghost use Rattle.std.specs.Prelude.{◌≡◌, ◌-◌, ◌^◌, ◌≤◌, pos, nat_abs, ◌*ℤ◌};
ghost use Rattle.spec_spline.specs.Space.{degree_limit};
ghost use Rattle.spec_spline.specs.Conditions;
ghost use Rattle.build_scales.specs.Scales.{PowerAsks, ScaleAsks};

// FALLING[p][k] is p (p - 1) .. (p - k + 1).
const FALLING: [[i64; 3]; 6] = [
    [1, 0, 0],
    [1, 1, 0],
    [1, 2, 2],
    [1, 3, 6],
    [1, 4, 12],
    [1, 5, 20],
];

// BINOMIAL[k][t].
const BINOMIAL: [[i64; 3]; 3] = [[1, 0, 0], [1, 1, 0], [1, 2, 1]];

fn falling(p: usize, k: usize) -> i64
    requires { (p ≤ degree_limit) × (k ≤ 2) }
    ensures { result ≡ pos (Conditions.falling p k) }
{
    FALLING[p][k]
}

fn binomial(k: usize, t: usize) -> i64
    requires { (k ≤ 2) × (t ≤ 2) }
    ensures { result ≡ pos (Conditions.binomial k t) }
{
    BINOMIAL[k][t]
}

fn power(x: i64, k: usize) -> i64
    requires { PowerAsks x k }
    ensures { result ≡ pos (nat_abs x ^ k) }
{
    if k == 0 {
        return 1;
    }
    if k == 1 {
        return x;
    }
    x * x
}

// F(p, k) times the k-th power of the other side's length.
pub fn scale(p: usize, k: usize, other: i64) -> i64
    requires { ScaleAsks p k other }
    ensures { result ≡ pos (Conditions.scale p k (nat_abs other)) }
{
    let f = falling(p, k);
    let x = power(other, k);
    f * x
}

// The binomial with the sign of (-1)^(k - t).
pub fn signed_binomial(k: usize, t: usize) -> i64
    requires { (t ≤ k) × (k ≤ 2) }
    ensures { result ≡ pos (Conditions.binomial k t) *ℤ Conditions.alternating (k - t) }
{
    let b = binomial(k, t);
    if (k - t) % 2 == 0 { b } else { 0 - b }
}
