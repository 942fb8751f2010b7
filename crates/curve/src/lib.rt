// The curves of earlywood and latewood over one multi-degree spline space at given positions: the weights and the ordinates of all
// columns, and then two de Casteljau triangles for each position.
#![tactic(auto)]

ghost use Rattle.std.specs.Prelude.{◌≡◌, []};
ghost use Rattle.build_space.specs.Machine.{space};
ghost use Rattle.curve_places.specs.Offsets.{columns_of};
ghost use Rattle.curve.specs.Pairs.{pairs_written, FewDegrees, ValuesAsk};
ghost use Rattle.spec_spline.specs.CurveCall.{curve_end};
ghost use Rattle.base_outcome.specs.Machine.{reply};

use base_outcome::Refusal;

// The first columns of the segments.
fn first_columns(degrees: &[i32]) -> [usize; build_space::SEGMENT_LIMIT]
    requires { FewDegrees degrees.now }
    ensures { result ≡ columns_of (space [] degrees.now []) }
{
    let mut columns = [0; build_space::SEGMENT_LIMIT];
    let mut column = 0;
    for i in 0..degrees.len() {
        columns[i] = column;
        column += build_space::degree_at(degrees, i) + 1;
    }
    columns
}

// Both values at each of the positions, side by side in list order, of the curves with these ordinates of all columns.
fn write_values(
    breaks: &[i32],
    degrees: &[i32],
    orders: &[i32],
    earlywood: &[i32],
    latewood: &[i32],
    positions: &[i32],
    values: &mut [i32],
)
    requires { ValuesAsk (space breaks.now degrees.now orders.now) earlywood.now latewood.now positions.now values.old }
    ensures { values.new ≡ pairs_written (space breaks.now degrees.now orders.now)
        earlywood.now latewood.now positions.now values.old }
{
    let columns = first_columns(degrees);
    let firsts = curve_segments::first_positions(breaks, degrees, orders);
    let wholes = curve_places::inverse_wholes(breaks, degrees);
    let tails = curve_places::inverse_tails(breaks, degrees);
    let mut at = 0;
    for k in 0..positions.len() {
        let x = positions[k];
        at = curve_segments::segment_near(&firsts, degrees.len(), x, at);
        let location = curve_places::location_at(breaks, degrees, &columns, at, x);
        let whole = wholes[at];
        let tail = tails[at];
        let pair = curve_places::pair_at(earlywood, latewood, location, whole, tail);
        let early = pair.early;
        let late = pair.late;
        values[2 * k] = early;
        values[2 * k + 1] = late;
    }
}

// Builds the weights and writes the values at each position, earlywood first, in list order. Lists and buffers may have any
// length and content: what the definition refuses is refused, and the buffers are then as it says.
pub fn curve(
    breaks: &[i32],
    degrees: &[i32],
    orders: &[i32],
    coefs: &[i32],
    positions: &[i32],
    num: &mut [i64],
    den: &mut [i64],
    values: &mut [i32],
) -> Result<usize, Refusal>
    ensures { let e = curve_end (space breaks.now degrees.now orders.now) coefs.now
        positions.now num.old den.old values.old in
        (reply result ≡ e.answers) × ((num.new ≡ e.numerators)
        × ((den.new ≡ e.denominators) × (values.new ≡ e.values))) }
{
    let mut early = [0; curve_places::COLUMN_LIMIT];
    let mut late = [0; curve_places::COLUMN_LIMIT];
    curve_start::build_curves(
        breaks,
        degrees,
        orders,
        coefs,
        positions,
        values.len(),
        num,
        den,
        &mut early,
        &mut late,
    )?;
    write_values(breaks, degrees, orders, &early, &late, positions, values);
    Ok(positions.len())
}
