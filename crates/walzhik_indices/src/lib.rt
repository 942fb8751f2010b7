// The second library for C and Rust: the index calls and those for the lines of the table of indices, with their answers as a struct by
// value.
#![tactic(auto)]

ghost use Rattle.std.specs.Prelude.{◌≡◌};
ghost use Rattle.build_space.specs.Machine.{space};
ghost use Rattle.spec_spline.specs.Reading.{earlywood, latewood};
ghost use Rattle.spec_calls.specs.Indices.{indices_end};
ghost use Rattle.spec_table.specs.RingLinesCall.{ring_lines_end};
ghost use Rattle.walzhik_reply.specs.Machine.{replied};

// indices::indices by the earlywood.
#[unsafe(no_mangle)]
pub extern "C" fn walzhik_earlywood_indices(
    breaks: &[i32],
    degrees: &[i32],
    orders: &[i32],
    coefs: &[i32],
    first: i32,
    widths: &[i32],
    num: &mut [i64],
    den: &mut [i64],
    values: &mut [i32],
    indices: &mut [i64],
) -> walzhik_reply::Reply
    ensures { let e = indices_end (record {
      wood = earlywood;
      space = space breaks.now degrees.now orders.now;
      coefs = coefs.now;
      first_ring = first;
      widths = widths.now;
      num = num.old;
      den = den.old;
      values = values.old;
      indices = indices.old;
    }) in
        (result ≡ replied e.answers) × ((num.new ≡ e.numerators)
        × ((den.new ≡ e.denominators) × ((values.new ≡ e.values) × (indices.new ≡ e.indices)))) }
{
    let answer = indices::indices(
        curve_ordinates::Wood::Earlywood,
        breaks,
        degrees,
        orders,
        coefs,
        first,
        widths,
        num,
        den,
        values,
        indices,
    );
    walzhik_reply::reply_of(answer)
}

// indices::indices by the latewood.
#[unsafe(no_mangle)]
pub extern "C" fn walzhik_latewood_indices(
    breaks: &[i32],
    degrees: &[i32],
    orders: &[i32],
    coefs: &[i32],
    first: i32,
    widths: &[i32],
    num: &mut [i64],
    den: &mut [i64],
    values: &mut [i32],
    indices: &mut [i64],
) -> walzhik_reply::Reply
    ensures { let e = indices_end (record {
      wood = latewood;
      space = space breaks.now degrees.now orders.now;
      coefs = coefs.now;
      first_ring = first;
      widths = widths.now;
      num = num.old;
      den = den.old;
      values = values.old;
      indices = indices.old;
    }) in
        (result ≡ replied e.answers) × ((num.new ≡ e.numerators)
        × ((den.new ≡ e.denominators) × ((values.new ≡ e.values) × (indices.new ≡ e.indices)))) }
{
    let answer = indices::indices(
        curve_ordinates::Wood::Latewood,
        breaks,
        degrees,
        orders,
        coefs,
        first,
        widths,
        num,
        den,
        values,
        indices,
    );
    walzhik_reply::reply_of(answer)
}

// table_lines::ring_lines by the earlywood.
#[unsafe(no_mangle)]
pub extern "C" fn walzhik_earlywood_ring_lines(
    name: &[u8],
    first: i32,
    widths: &[i32],
    values: &[i32],
    indices: &[i64],
    out: &mut [u8],
) -> walzhik_reply::Reply
    ensures { let e = ring_lines_end earlywood (record {
      name = name.entry.now;
      first_year = first;
      widths = widths.now;
      values = values.now;
      indices = indices.now;
    }) out.old in
        (result ≡ replied e.answers) × (out.new ≡ e.text) }
{
    let answer = table_lines::ring_lines(
        curve_ordinates::Wood::Earlywood,
        name,
        first,
        widths,
        values,
        indices,
        out,
    );
    walzhik_reply::reply_of(answer)
}

// table_lines::ring_lines by the latewood.
#[unsafe(no_mangle)]
pub extern "C" fn walzhik_latewood_ring_lines(
    name: &[u8],
    first: i32,
    widths: &[i32],
    values: &[i32],
    indices: &[i64],
    out: &mut [u8],
) -> walzhik_reply::Reply
    ensures { let e = ring_lines_end latewood (record {
      name = name.entry.now;
      first_year = first;
      widths = widths.now;
      values = values.now;
      indices = indices.now;
    }) out.old in
        (result ≡ replied e.answers) × (out.new ≡ e.text) }
{
    let answer = table_lines::ring_lines(
        curve_ordinates::Wood::Latewood,
        name,
        first,
        widths,
        values,
        indices,
        out,
    );
    walzhik_reply::reply_of(answer)
}
