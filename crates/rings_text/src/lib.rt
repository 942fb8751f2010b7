// The bytes that the program `rings` prints of one series: the lines of its rings, or the one line of its refusal.
#![tactic(auto)]

ghost use Rattle.std.specs.Prelude.{◌≡◌, ◌^◌, ◌<◌, ◌≤◌, pos, ◌+ℤ◌, length};
ghost use Rattle.spec_spline.specs.CurveCall.{position_limit};
ghost use Rattle.spec_table.specs.RingLines.{ring_lines};
ghost use Rattle.spec_rings.specs.Rings.{faulty_ring, fault_line, series_text};
ghost use Rattle.rings_read.specs.Machine.{Front};
ghost use Rattle.rings_text.specs.Printed.{FaultAsks, LinesAsk, SeriesAsks};
ghost use Rattle.build_space.specs.Machine.{space};
ghost use Rattle.curve_ordinates.specs.Wood.{wood_of};

use base_outcome::{codes, limits};
use curve_ordinates::Wood;

// The most rings that an index call takes.
const MOST_RINGS: u32 = limits::POSITION_LIMIT as u32;

// The cells of the values of as many rings, two each.
const VALUE_CELLS: usize = 2 * limits::POSITION_LIMIT;

// The most bytes of a line: `line_limit` of specs/Printed.
const LINE_LIMIT: usize = 118;

// The most bytes of a series' lines.
pub const SERIES_BYTES: usize = LINE_LIMIT * limits::POSITION_LIMIT;

// The first ring at fault.
fn fault_ring(code: u8, place: u32) -> u32
    ensures { result ≡ faulty_ring code place }
{
    if code == codes::LENGTHS {
        return MOST_RINGS;
    }
    place
}

// The year of a ring, counted from the first year.
fn year_of(first: i32, ring: usize) -> i64
    requires { ring < 2 ^ 62 }
    ensures { result ≡ first +ℤ pos ring }
{
    first as i64 + ring as i64
}

// The line of a series that is refused: NAME,YEAR,,,no=NUMBER
fn put_fault(name: &[u8], year: i64, code: u8, out: &mut [u8]) -> usize
    requires { FaultAsks name.now out.old }
    ensures { Front (fault_line name.now year code) result out.new }
{
    let a = table_name::put_name(out, name);
    let b = base_print::put(out, a, b',');
    let c = base_print::put_decimal(out, b, year);
    let d = base_print::put_text(out, c, b",,,no=");
    let e = base_print::put_digits(out, d, code as u64);
    base_print::put(out, e, 10)
}

// The lines of a series' rings. What the call of the table is handed it never refuses.
fn put_lines(
    wood: Wood,
    name: &[u8],
    first: i32,
    widths: &[i32],
    values: &[i32],
    indices: &[i64],
    out: &mut [u8],
) -> usize
    requires { LinesAsk (wood_of wood) (record {
      name = name.now;
      first_year = first;
      widths = widths.now;
      values = values.now;
      indices = indices.now;
    }) out.old }
    ensures { Front (ring_lines (wood_of wood) (record {
      name = name.entry.now;
      first_year = first;
      widths = widths.now;
      values = values.now;
      indices = indices.now;
    })) result out.new }
{
    table_lines::ring_lines(wood, name, first, widths, values, indices, out).unwrap()
}

// A series of no more rings than an index call takes: their lines, or the line of its refusal.
fn put_indexed(
    wood: Wood,
    breaks: &[i32],
    degrees: &[i32],
    orders: &[i32],
    coefs: &[i32],
    name: &[u8],
    first: i32,
    widths: &[i32],
    out: &mut [u8],
) -> usize
    requires series_asks { SeriesAsks (space breaks.now degrees.now orders.now) name.now out.old }
    requires widths_len_bound { length widths.now ≤ position_limit }
    ensures { Front (series_text (wood_of wood) (space breaks.now degrees.now orders.now)
        coefs.now (record { name = name.entry.now; first_year = first; widths = widths.now })) result out.new }
{
    let mut num = [0; build_cells::TABLE_CELLS];
    let mut den = [1; build_cells::TABLE_CELLS];
    let mut values = [0; VALUE_CELLS];
    let mut ring_indices = [0; limits::POSITION_LIMIT];
    let n = widths.len();
    let answer = indices::indices(
        wood,
        breaks,
        degrees,
        orders,
        coefs,
        first,
        widths,
        &mut num,
        &mut den,
        &mut values,
        &mut ring_indices,
    );
    match answer {
        Err(refusal) => {
            let ring = fault_ring(refusal.code, refusal.place);
            let year = year_of(first, ring as usize);
            put_fault(name, year, refusal.code, out)
        }
        Ok(_) => {
            let cells = 2 * n;
            put_lines(
                wood,
                name,
                first,
                widths,
                &values[..cells],
                &ring_indices[..n],
                out,
            )
        }
    }
}

// The bytes of a series at the front of the buffer, and how many they are.
pub fn put_series(
    wood: Wood,
    breaks: &[i32],
    degrees: &[i32],
    orders: &[i32],
    coefs: &[i32],
    name: &[u8],
    first: i32,
    widths: &[i32],
    out: &mut [u8],
) -> usize
    requires { SeriesAsks (space breaks.now degrees.now orders.now) name.now out.old }
    ensures { Front (series_text (wood_of wood) (space breaks.now degrees.now orders.now)
        coefs.now (record { name = name.entry.now; first_year = first; widths = widths.now })) result out.new }
{
    if widths.len() > limits::POSITION_LIMIT {
        let year = year_of(first, limits::POSITION_LIMIT);
        return put_fault(name, year, codes::LENGTHS, out);
    }
    put_indexed(
        wood, breaks, degrees, orders, coefs, name, first, widths, out,
    )
}
