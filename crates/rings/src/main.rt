// Reads a wood, a sheet and a Tucson text from standard input and writes the table of indices to standard output, series by series.
#![tactic(auto)]

ghost use Rattle.std.specs.Prelude.{◌≤◌, length};
ghost use Rattle.curve_ordinates.specs.Wood.{wood_of};
ghost use Rattle.rings_pieces.specs.Piece.{Held, width_cells};
ghost use Rattle.rings_text.specs.Printed.{series_limit};

use base_outcome::{Refusal, limits};
use curve_ordinates::Wood;
use std::io;
use std::io::Print;

// One byte more than the longest input, so that a longer one is seen to be too long.
const INPUT_BYTES: usize = limits::TEXT_LIMIT + 1;

// The most bytes of the line of a refusal.
const REFUSAL_BYTES: usize = 45;

// Writes the pieces of all series in order over the lent buffer, each when it has been worked out, until a write fails.
fn write_over<P: Print>(
    to: &P,
    input: &[u8],
    wood: Wood,
    breaks: &[i32],
    degrees: &[i32],
    orders: &[i32],
    coefs: &[i32],
    n: usize,
    names: &[u8],
    years: &[i32],
    counts: &[u32],
    widths: &[i32],
    out: &mut [u8],
) -> io::Result<()>
    requires held { Held input.now (wood_of wood) breaks.now degrees.now orders.now coefs.now n names.now years.now
        counts.now widths.now }
    requires widths_len_bound { length widths.now ≤ width_cells }
    requires room { series_limit ≤ length out.old }
{
    let mut start = 0;
    for k in 0..n {
        let size = rings_pieces::put_piece(
            input, wood, breaks, degrees, orders, coefs, n, names, years, counts, widths, k, start,
            out,
        );
        to.write_all(&out[..size])?;
        start += counts[k] as usize;
    }
    Ok(())
}

// Writes the pieces of all series in order, each when it has been worked out, until a write fails.
fn write_pieces<P: Print>(
    to: &P,
    input: &[u8],
    wood: Wood,
    breaks: &[i32],
    degrees: &[i32],
    orders: &[i32],
    coefs: &[i32],
    n: usize,
    names: &[u8],
    years: &[i32],
    counts: &[u32],
    widths: &[i32],
) -> io::Result<()>
    requires held { Held input.now (wood_of wood) breaks.now degrees.now orders.now coefs.now n names.now years.now
        counts.now widths.now }
    requires widths_len_bound { length widths.now ≤ width_cells }
{
    let mut out = [0u8; rings_text::SERIES_BYTES];
    write_over(
        to, input, wood, breaks, degrees, orders, coefs, n, names, years, counts, widths, &mut out,
    )
}

// The same for the buffers of judging, whose lengths are known.
fn write_ready<P: Print>(
    to: &P,
    input: &[u8],
    wood: Wood,
    breaks: &[i32],
    degrees: &[i32],
    orders: &[i32],
    coefs: &[i32],
    n: usize,
    names: &[u8; tucson_text::NAMES],
    years: &[i32; tucson_text::SERIES],
    counts: &[u32; tucson_text::SERIES],
    widths: &[i32; tucson_text::WIDTHS],
) -> io::Result<()>
    requires { Held input.now (wood_of wood) breaks.now degrees.now orders.now coefs.now n names.now years.now
        counts.now widths.now }
{
    write_pieces(
        to, input, wood, breaks, degrees, orders, coefs, n, names, years, counts, widths,
    )
}

// Writes the first line of the table.
fn write_header<P: Print>(to: &P) -> io::Result<()> {
    let mut line = [0u8; rings_pieces::HEADER_BYTES];
    let count = rings_pieces::put_header(&mut line);
    to.write_all(&line[..count])
}

// Writes the line of a refusal.
fn write_refusal<P: Print>(to: &P, refusal: Refusal) -> io::Result<()> {
    let mut line = [0u8; REFUSAL_BYTES];
    let count = base_print::refusal(refusal.code, refusal.place, &mut line);
    to.write_all(&line[..count])
}

// Judges the input by the lent buffers, and writes its table or its refusal.
fn write_judged<P: Print>(
    to: &P,
    input: &[u8],
    breaks: &mut [i32; sheet_lines::LIST_LIMIT],
    degrees: &mut [i32; sheet_lines::LIST_LIMIT],
    orders: &mut [i32; sheet_lines::LIST_LIMIT],
    coefs: &mut [i32; sheet_read::COEFFICIENT_NUMBERS],
    names: &mut [u8; tucson_text::NAMES],
    years: &mut [i32; tucson_text::SERIES],
    counts: &mut [u32; tucson_text::SERIES],
    widths: &mut [i32; tucson_text::WIDTHS],
) -> io::Result<()> {
    let judged = rings_read::judge(
        input, breaks, degrees, orders, coefs, names, years, counts, widths,
    );
    match judged {
        Ok(ready) => {
            write_header(to)?;
            write_ready(
                to,
                input,
                ready.wood,
                &breaks[..ready.breaks],
                &degrees[..ready.degrees],
                &orders[..ready.orders],
                &coefs[..ready.coefs],
                ready.series,
                names,
                years,
                counts,
                widths,
            )
        }
        Err(refusal) => write_refusal(to, refusal),
    }
}

// Writes the table of the input, or its refusal.
fn write_table<P: Print>(to: &P, input: &[u8]) -> io::Result<()> {
    let mut breaks = [0i32; sheet_lines::LIST_LIMIT];
    let mut degrees = [0i32; sheet_lines::LIST_LIMIT];
    let mut orders = [0i32; sheet_lines::LIST_LIMIT];
    let mut coefs = [0i32; sheet_read::COEFFICIENT_NUMBERS];
    let mut names = [0u8; tucson_text::NAMES];
    let mut years = [0i32; tucson_text::SERIES];
    let mut counts = [0u32; tucson_text::SERIES];
    let mut widths = [0i32; tucson_text::WIDTHS];
    write_judged(
        to,
        input,
        &mut breaks,
        &mut degrees,
        &mut orders,
        &mut coefs,
        &mut names,
        &mut years,
        &mut counts,
        &mut widths,
    )
}

// Reads an input into the lent buffer and writes its table.
fn print_table(rt: &HostRuntime, input: &mut [u8]) -> io::Result<()> {
    let read = base_input::read_input(&mut rt.stdin(), input);
    if let Some(error) = read.failed {
        return eprintln!(rt; "read: {error}");
    }
    let n = read.count;
    match write_table(rt, &input[..n]) {
        Ok(()) => Ok(()),
        Err(error) => eprintln!(rt; "write: {error}"),
    }
}

fn main(rt: HostRuntime) -> io::Result<()> {
    let mut input = [0u8; INPUT_BYTES];
    print_table(&rt, &mut input)
}
