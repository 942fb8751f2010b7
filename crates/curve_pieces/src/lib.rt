// One piece of a curve for the screen: the weights and the ordinates of all columns as for a curve call without positions, and
// then the named segment's ordinates and ends as 64-bit floats.
#![tactic(auto)]

ghost use Rattle.std.specs.Prelude.{◌≡◌};
ghost use Rattle.build_space.specs.Machine.{space};
ghost use Rattle.curve_ordinates.specs.Wood.{wood_of};
ghost use Rattle.spec_calls.specs.Pieces.{piece_end};
ghost use Rattle.curve_pieces.specs.Machine.{Shows, piece_held, drawn_held, Replies, PieceAsks, DrawAsks};

use base_outcome::{Refusal, codes};
use curve_drawing::Curve;
use curve_ordinates::Wood;

// The two ends of a piece, in rings.
#[derive(Clone, Copy)]
pub struct Ends {
    pub start: f64,
    pub end: f64,
}

// A piece with its ends beside it.
#[derive(Clone, Copy)]
pub struct Drawing {
    pub curve: Curve,
    pub ends: Ends,
}

// The screen draws lines, quadratics and cubics.
const DRAWABLE_DEGREE: usize = 3;

// The piece of segment k, whose degree the screen draws.
fn piece_at(breaks: &[i32], degrees: &[i32], orders: &[i32], ordinates: &[i32], k: usize) -> Drawing
    requires { PieceAsks (space breaks.now degrees.now orders.now) ordinates.now k }
    ensures { Shows result (piece_held (space breaks.now degrees.now orders.now) ordinates.now
        k) }
{
    let column = build_space::first_column(degrees, k);
    let degree = build_space::degree_at(degrees, k);
    let curve = curve_drawing::curve_at(ordinates, column, degree);
    let start = curve_drawing::whole(breaks[k]);
    let end = curve_drawing::whole(breaks[k + 1]);
    let ends = Ends { start, end };
    Drawing { curve, ends }
}

// The piece of the named segment, or code 17.
fn draw(
    breaks: &[i32],
    degrees: &[i32],
    orders: &[i32],
    ordinates: &[i32],
    segment: u32,
) -> Result<Drawing, Refusal>
    requires { DrawAsks (space breaks.now degrees.now orders.now) ordinates.now }
    ensures { Replies result (drawn_held (space breaks.now degrees.now orders.now)
        ordinates.now segment) }
{
    let k = segment as usize;
    if k >= degrees.len() {
        return Err(Refusal {
            code: codes::NOT_DRAWN,
            place: segment,
        });
    }
    if build_space::degree_at(degrees, k) > DRAWABLE_DEGREE {
        return Err(Refusal {
            code: codes::NOT_DRAWN,
            place: segment,
        });
    }
    Ok(piece_at(breaks, degrees, orders, ordinates, k))
}

// Builds the weights, and answers the piece of the wood part's curve over the named segment. Lists and buffers may have any
// length and content: what the definition refuses is refused, and the buffers are then as it says.
pub fn piece(
    wood: Wood,
    breaks: &[i32],
    degrees: &[i32],
    orders: &[i32],
    coefs: &[i32],
    segment: u32,
    num: &mut [i64],
    den: &mut [i64],
) -> Result<Drawing, Refusal>
    ensures { let e = piece_end (space breaks.now degrees.now orders.now) (wood_of wood)
        coefs.now segment num.old den.old in
        Replies result e.answers × ((num.new ≡ e.numerators) × (den.new ≡ e.denominators)) }
{
    let mut early = [0; curve_places::COLUMN_LIMIT];
    let mut late = [0; curve_places::COLUMN_LIMIT];
    if let Err(refusal) = curve_start::build_curves(
        breaks,
        degrees,
        orders,
        coefs,
        &coefs[0..0],
        0,
        num,
        den,
        &mut early,
        &mut late,
    ) {
        return Err(refusal);
    }
    match wood {
        Wood::Earlywood => draw(breaks, degrees, orders, &early, segment),
        Wood::Latewood => draw(breaks, degrees, orders, &late, segment),
    }
}
