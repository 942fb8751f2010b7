// The engine for C and Rust: the public calls with their answers as a struct by value.
#![tactic(auto)]

ghost use Rattle.std.specs.Prelude.{◌≡◌};
ghost use Rattle.build_space.specs.Machine.{space};
ghost use Rattle.spec_spline.specs.Build.{build_end};
ghost use Rattle.spec_calls.specs.RecoveryCall.{recovery_end};
ghost use Rattle.spec_spline.specs.Reading.{earlywood, latewood};
ghost use Rattle.spec_spline.specs.CurveCall.{curve_end};
ghost use Rattle.spec_tucson.specs.ReadCall.{read_end};
ghost use Rattle.spec_tucson.specs.WriteCall.{write_end};
ghost use Rattle.spec_tucson.specs.CleanCall.{clean_end};
ghost use Rattle.spec_calls.specs.Reach.{reach_end};
ghost use Rattle.spec_calls.specs.Pieces as pieces;
ghost use Rattle.walzhik_reply.specs.Machine.{replied};
ghost use Rattle.walzhik_structs.specs.Machine.{reached};
ghost use Rattle.walzhik_structs.specs.Piece.{Sent};
ghost use Rattle.walzhik_structs.specs.File.{cleaned};

// build::build
#[unsafe(no_mangle)]
pub extern "C" fn walzhik_build(
    breaks: &[i32],
    degrees: &[i32],
    orders: &[i32],
    num: &mut [i64],
    den: &mut [i64],
) -> walzhik_reply::Reply
    ensures { let e = build_end (space breaks.now degrees.now orders.now) num.old
        den.old in
        (result ≡ replied e.answers) × ((num.new ≡ e.numerators) × (den.new ≡ e.denominators)) }
{
    let built = build::build(breaks, degrees, orders, num, den);
    walzhik_reply::reply_of(built)
}

// recover::coefficients
#[unsafe(no_mangle)]
pub extern "C" fn walzhik_coefficients(
    breaks: &[i32],
    degrees: &[i32],
    orders: &[i32],
    ordinates: &[i32],
    num: &mut [i64],
    den: &mut [i64],
    coef_num: &mut [i64],
    coef_den: &mut [i64],
) -> walzhik_reply::Reply
    ensures { let e = recovery_end (space breaks.now degrees.now orders.now)
        ordinates.now num.old den.old coef_num.old coef_den.old in
        (result ≡ replied e.answers) × ((num.new ≡ e.numerators)
        × ((den.new ≡ e.denominators) × ((coef_num.new ≡ e.coefficient_numerators)
        × (coef_den.new ≡ e.coefficient_denominators)))) }
{
    let built = recover::coefficients(
        breaks, degrees, orders, ordinates, num, den, coef_num, coef_den,
    );
    walzhik_reply::reply_of(built)
}

// curve::curve
#[unsafe(no_mangle)]
pub extern "C" fn walzhik_curve(
    breaks: &[i32],
    degrees: &[i32],
    orders: &[i32],
    coefs: &[i32],
    positions: &[i32],
    num: &mut [i64],
    den: &mut [i64],
    values: &mut [i32],
) -> walzhik_reply::Reply
    ensures { let e = curve_end (space breaks.now degrees.now orders.now) coefs.now
        positions.now num.old den.old values.old in
        (result ≡ replied e.answers) × ((num.new ≡ e.numerators)
        × ((den.new ≡ e.denominators) × (values.new ≡ e.values))) }
{
    let answer = curve::curve(breaks, degrees, orders, coefs, positions, num, den, values);
    walzhik_reply::reply_of(answer)
}

// tucson_read::read
#[unsafe(no_mangle)]
pub extern "C" fn walzhik_tucson_read(
    text: &[u8],
    names: &mut [u8],
    years: &mut [i32],
    counts: &mut [u32],
    widths: &mut [i32],
) -> walzhik_reply::Reply
    ensures { let e = read_end text.now names.old years.old counts.old
        widths.old in
        (result ≡ replied e.answers) × ((names.new ≡ e.names)
        × ((years.new ≡ e.years) × ((counts.new ≡ e.counts) × (widths.new ≡ e.widths)))) }
{
    let answer = tucson_read::read(text, names, years, counts, widths);
    walzhik_reply::reply_of(answer)
}

// tucson_write::write
#[unsafe(no_mangle)]
pub extern "C" fn walzhik_tucson_write(
    names: &[u8],
    years: &[i32],
    counts: &[u32],
    widths: &[i32],
    text: &mut [u8],
) -> walzhik_reply::Reply
    ensures { let e = write_end names.now years.now counts.now widths.now
        text.old in
        (result ≡ replied e.answers) × (text.new ≡ e.text) }
{
    let answer = tucson_write::write(names, years, counts, widths, text);
    walzhik_reply::reply_of(answer)
}

// tucson_clean::clean
#[unsafe(no_mangle)]
pub extern "C" fn walzhik_tucson_clean(
    text: &[u8],
    header: u32,
    unit: u32,
    out: &mut [u8],
    lines: &mut [usize],
    notes: &mut [usize],
) -> walzhik_structs::Cleaned
    ensures { let e = clean_end text.now header unit out.old lines.old notes.old in
        (result ≡ cleaned e.answers) × ((out.new ≡ e.text)
        × ((lines.new ≡ e.lines) × (notes.new ≡ e.notes))) }
{
    let answer = tucson_clean::clean(text, header, unit, out, lines, notes);
    walzhik_structs::cleaned_of(answer)
}

// curve_reach::reach of the earlywood.
#[unsafe(no_mangle)]
pub extern "C" fn walzhik_earlywood_reach(
    breaks: &[i32],
    degrees: &[i32],
    orders: &[i32],
    coefs: &[i32],
    width: i32,
    num: &mut [i64],
    den: &mut [i64],
) -> walzhik_structs::Reach
    ensures { let e = reach_end (space breaks.now degrees.now orders.now) earlywood
        coefs.now width num.old den.old in
        (result ≡ reached e.answers) × ((num.new ≡ e.numerators) × (den.new ≡ e.denominators)) }
{
    let answer = curve_reach::reach(
        curve_ordinates::Wood::Earlywood,
        breaks,
        degrees,
        orders,
        coefs,
        width,
        num,
        den,
    );
    walzhik_structs::reach_of(answer)
}

// curve_reach::reach of the latewood.
#[unsafe(no_mangle)]
pub extern "C" fn walzhik_latewood_reach(
    breaks: &[i32],
    degrees: &[i32],
    orders: &[i32],
    coefs: &[i32],
    width: i32,
    num: &mut [i64],
    den: &mut [i64],
) -> walzhik_structs::Reach
    ensures { let e = reach_end (space breaks.now degrees.now orders.now) latewood
        coefs.now width num.old den.old in
        (result ≡ reached e.answers) × ((num.new ≡ e.numerators) × (den.new ≡ e.denominators)) }
{
    let answer = curve_reach::reach(
        curve_ordinates::Wood::Latewood,
        breaks,
        degrees,
        orders,
        coefs,
        width,
        num,
        den,
    );
    walzhik_structs::reach_of(answer)
}

// curve_pieces::piece of the earlywood.
#[unsafe(no_mangle)]
pub extern "C" fn walzhik_earlywood_piece(
    breaks: &[i32],
    degrees: &[i32],
    orders: &[i32],
    coefs: &[i32],
    segment: u32,
    num: &mut [i64],
    den: &mut [i64],
) -> walzhik_structs::Piece
    ensures { let e = pieces.piece_end (space breaks.now degrees.now orders.now) earlywood
        coefs.now segment num.old den.old in
        Sent result e.answers × ((num.new ≡ e.numerators) × (den.new ≡ e.denominators)) }
{
    let answer = curve_pieces::piece(
        curve_ordinates::Wood::Earlywood,
        breaks,
        degrees,
        orders,
        coefs,
        segment,
        num,
        den,
    );
    walzhik_structs::piece_of(answer)
}

// curve_pieces::piece of the latewood.
#[unsafe(no_mangle)]
pub extern "C" fn walzhik_latewood_piece(
    breaks: &[i32],
    degrees: &[i32],
    orders: &[i32],
    coefs: &[i32],
    segment: u32,
    num: &mut [i64],
    den: &mut [i64],
) -> walzhik_structs::Piece
    ensures { let e = pieces.piece_end (space breaks.now degrees.now orders.now) latewood
        coefs.now segment num.old den.old in
        Sent result e.answers × ((num.new ≡ e.numerators) × (den.new ≡ e.denominators)) }
{
    let answer = curve_pieces::piece(
        curve_ordinates::Wood::Latewood,
        breaks,
        degrees,
        orders,
        coefs,
        segment,
        num,
        den,
    );
    walzhik_structs::piece_of(answer)
}
