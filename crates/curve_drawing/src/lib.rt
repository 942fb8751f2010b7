// The ordinates and breakpoints of a piece as 64-bit floats, exactly: what the screen is drawn from.
#![tactic(auto)]

ghost use Rattle.std.specs.Prelude.{◌+◌, ◌<◌, pos, length, get_or};
ghost use Rattle.base_exact.specs.Tabulate.{tab};
ghost use Rattle.spec_spline.specs.Reading.{fineness};
ghost use Rattle.curve_drawing.specs.Floats.{Is, Each, floats, CurveAsks};

// A line, a quadratic or a cubic, with its ordinates from the left, in thousandths of a millimetre.
#[derive(Clone, Copy)]
pub enum Curve {
    Line(f64, f64),
    Quadratic(f64, f64, f64),
    Cubic(f64, f64, f64, f64),
}

// 1 / 256, a power of two.
const SCALE: f64 = 0.00390625;

// An ordinate in 256ths, exactly.
fn scaled(x: i32) -> f64
    ensures { Is result x fineness }
{
    (x as f64) * SCALE
}

// A breakpoint, exactly.
pub fn whole(x: i32) -> f64
    ensures { Is result x 1 }
{
    x as f64
}

// Ordinate i.
fn float_at(ordinates: &[i32], i: usize) -> f64
    requires { i < length ordinates.now }
    ensures { Is result (get_or ordinates.now i (pos 0)) fineness }
{
    let o = ordinates[i];
    scaled(o)
}

// The ordinates from this column on, as many as the degree asks.
pub fn curve_at(ordinates: &[i32], column: usize, degree: usize) -> Curve
    requires { CurveAsks ordinates.now column degree }
    ensures { Each fineness (floats result) (tab (1 + degree) (λ i. get_or ordinates.now (column + i) (pos 0))) }
{
    let a = float_at(ordinates, column);
    let b = float_at(ordinates, column + 1);
    if degree == 1 {
        return Curve::Line(a, b);
    }
    let c = float_at(ordinates, column + 2);
    if degree == 2 {
        return Curve::Quadratic(a, b, c);
    }
    let d = float_at(ordinates, column + 3);
    Curve::Cubic(a, b, c, d)
}
