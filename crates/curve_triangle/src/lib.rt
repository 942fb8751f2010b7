// The de Casteljau triangle on at most six ordinates held by value, with one rate for all of its blends.
#![tactic(auto)]

ghost use Rattle.curve_triangle.specs.Triangle.{BlendAsks, StageAsks, BlendIs, StageIs, TriangleIs};

// Neighbours g, h at u of d.
fn blend(g: i64, h: i64, high: i64, low: i64) -> i64
    requires { BlendAsks g h high low }
    ensures { BlendIs g h high low result }
{
    g + curve_rate::share_of(h - g, high, low)
}

// One stage: the first n numbers are blended with their neighbours.
fn stage(o: [i64; 6], n: usize, high: i64, low: i64) -> [i64; 6]
    requires { StageAsks o n high low }
    ensures { StageIs o n high low result }
{
    let mut r = o;
    for k in 0..n {
        let g = r[k];
        let h = r[k + 1];
        r[k] = blend(g, h, high, low);
    }
    r
}

// All p stages: what is left of p + 1 ordinates.
pub fn triangle(o: [i64; 6], p: usize, high: i64, low: i64) -> i64
    requires { StageAsks o p high low }
    ensures { TriangleIs o p high low result }
{
    let mut r = o;
    for n in (1..=p).rev() {
        r = stage(r, n, high, low);
    }
    r[0]
}
