// Ring indices: each measured ring divided by the curve of a named wood part. Of the code of the curves it calls `curve::curve` alone, and
// knows of it what its contract promises.
#![tactic(auto)]

ghost use Rattle.std.specs.Prelude.{◌≡◌, ◌+◌, ◌≤◌, length};
ghost use Rattle.spec_spline.specs.CurveCall.{position_limit, curve_end};
ghost use Rattle.indices.specs.Words.{nearest_word, word_positions, rings_taken};
ghost use Rattle.base_outcome.specs.Machine.{reply};
ghost use Rattle.spec_spline.specs.Reading.{wood_index};
ghost use Rattle.build_space.specs.Machine.{space};
ghost use Rattle.curve_ordinates.specs.Wood.{wood_of};
ghost use Rattle.spec_calls.specs.Indices.{indices_end};
ghost use Rattle.indices.specs.Machine.{cells_indexed, IndexAsks, Indexed, CurveLeaves};

const WORD_LEAST: i64 = -2147483648;

const WORD_GREATEST: i64 = 2147483647;

// The 32-bit number nearest to z.
fn nearest_word(z: i64) -> i32
    ensures { result ≡ nearest_word z }
{
    if z < WORD_LEAST {
        return WORD_LEAST as i32;
    }
    if z > WORD_GREATEST {
        return WORD_GREATEST as i32;
    }
    z as i32
}

// The positions of consecutive rings, each brought into 32 bits.
fn fill_positions(first: i32, positions: &mut [i32])
    requires { length positions.old ≤ position_limit + 1 }
    ensures { positions.new ≡ word_positions first (length positions.old) }
{
    for (i, x) in positions.iter_mut().enumerate() {
        let ring = first as i64 + i as i64;
        *x = nearest_word(base_outcome::limits::WIDE_FINENESS * ring);
    }
}

// One more than the curve call takes: it refuses these as it would refuse more.
const MOST_RINGS: usize = base_outcome::limits::POSITION_LIMIT + 1;

// As many rings as are read.
fn rings_taken(n: usize) -> usize
    ensures { result ≡ rings_taken n }
{
    if n < MOST_RINGS { n } else { MOST_RINGS }
}

// The curve call at the rings' positions, for which `positions` has the room.
fn read_rings(
    breaks: &[i32],
    degrees: &[i32],
    orders: &[i32],
    coefs: &[i32],
    first: i32,
    positions: &mut [i32],
    num: &mut [i64],
    den: &mut [i64],
    values: &mut [i32],
) -> Result<usize, base_outcome::Refusal>
    requires { length positions.old ≤ position_limit + 1 }
    ensures { CurveLeaves (curve_end (space breaks.now degrees.now orders.now) coefs.now
        (word_positions first (length positions.old)) num.old den.old values.old)
        result num.new den.new values.new }
{
    fill_positions(first, positions);
    curve::curve(breaks, degrees, orders, coefs, positions, num, den, values)
}

// The part's cell in each pair of values.
fn wood_index(wood: curve_ordinates::Wood) -> usize
    ensures { result ≡ wood_index (wood_of wood) }
{
    match wood {
        curve_ordinates::Wood::Earlywood => 0,
        curve_ordinates::Wood::Latewood => 1,
    }
}

// Code 14, or the indices, of rings whose values have been written.
fn index_rings(
    wood: curve_ordinates::Wood,
    widths: &[i32],
    values: &[i32],
    indices: &mut [i64],
) -> Result<usize, base_outcome::Refusal>
    requires { IndexAsks widths.now values.now indices.old }
    ensures { Indexed (cells_indexed widths.now values.now (wood_index (wood_of wood))) result indices.old
        indices.new }
{
    let offset = wood_index(wood);
    let bad = indices_rings::first_bad_ring(widths, values, offset);
    base_outcome::refuse_first(base_outcome::codes::RING, bad)?;
    indices_rings::write_indices(widths, values, offset, indices);
    Ok(widths.len())
}

// Builds the weights, writes both values of each ring, and then the named part's indices, one a ring. Lists and buffers may have
// any length and content: what the definition refuses is refused, and the buffers are then as it says.
pub fn indices(
    wood: curve_ordinates::Wood,
    breaks: &[i32],
    degrees: &[i32],
    orders: &[i32],
    coefs: &[i32],
    first: i32,
    widths: &[i32],
    num: &mut [i64],
    den: &mut [i64],
    values: &mut [i32],
    indices: &mut [i64],
) -> Result<usize, base_outcome::Refusal>
    ensures { let e = indices_end (record {
      wood = wood_of wood;
      space = space breaks.now degrees.now orders.now;
      coefs = coefs.now;
      first_ring = first;
      widths = widths.now;
      num = num.old;
      den = den.old;
      values = values.old;
      indices = indices.old;
    }) in
        (reply result ≡ e.answers) × ((num.new ≡ e.numerators)
        × ((den.new ≡ e.denominators) × ((values.new ≡ e.values) × (indices.new ≡ e.indices)))) }
{
    if num.len() < build_cells::TABLE_CELLS {
        return Err(base_outcome::Refusal {
            code: base_outcome::codes::SHORT_BUFFER,
            place: 0,
        });
    }
    if den.len() < build_cells::TABLE_CELLS {
        return Err(base_outcome::Refusal {
            code: base_outcome::codes::SHORT_BUFFER,
            place: 1,
        });
    }
    if values.len() / 2 < widths.len() {
        return Err(base_outcome::Refusal {
            code: base_outcome::codes::SHORT_BUFFER,
            place: 2,
        });
    }
    if indices.len() < widths.len() {
        return Err(base_outcome::Refusal {
            code: base_outcome::codes::SHORT_BUFFER,
            place: 3,
        });
    }
    let mut positions = [0; MOST_RINGS];
    let n = rings_taken(widths.len());
    read_rings(
        breaks,
        degrees,
        orders,
        coefs,
        first,
        &mut positions[..n],
        num,
        den,
        values,
    )?;
    index_rings(wood, widths, values, indices)
}
