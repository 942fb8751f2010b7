// The input of the program `rings` read and judged: the first refusal, or the lists that its table is made from.
#![tactic(auto)]

ghost use Rattle.std.specs.Prelude.{◌≡◌, ◌≤◌, length, take};
ghost use Rattle.base_outcome.specs.Outcome.{capped};
ghost use Rattle.base_outcome.specs.Machine.{reply, passed};
ghost use Rattle.spec_spline.specs.Table.{table_cells};
ghost use Rattle.spec_calls.specs.CurveAlone.{curve_alone};
ghost use Rattle.build_space.specs.Machine.{space};
ghost use Rattle.curve_ordinates.specs.Wood.{wood_of};
ghost use Rattle.spec_rings.specs.Ready as spec;
ghost use Rattle.rings_read.specs.Machine.{SheetHeld, SeriesHeld, file_judged, FrontsAsk, JudgedAs};

use base_outcome::{Refusal, codes, limits};
use curve_ordinates::Wood;
use sheet_read::Lengths;

// The lines of a sheet.
const SHEET_LINES: usize = 5;

// What is ready: a wood, how many numbers breakpoints, degrees, orders and coefficients have, and how many series there are.
#[derive(Clone, Copy)]
pub struct Ready {
    pub wood: Wood,
    pub breaks: usize,
    pub degrees: usize,
    pub orders: usize,
    pub coefs: usize,
    pub series: usize,
}

// The sheet's place in the whole input: its lines stand behind the first.
fn sheet_place(place: u32) -> u32
    ensures { result ≡ capped (spec.sheet_place place) }
{
    if place == 0 {
        return 0;
    }
    base_outcome::place(place as usize + 1)
}

// A line of the file in the whole input: the first line and the sheet's stand before it.
fn series_place(place: u32) -> u32
    ensures { result ≡ capped (spec.series_place place) }
{
    base_outcome::place(place as usize + (1 + SHEET_LINES))
}

// The lists of the sheet at the fronts of the buffers, or the place of code 10.
fn read_sheet(
    text: &[u8],
    breaks: &mut [i32; sheet_lines::LIST_LIMIT],
    degrees: &mut [i32; sheet_lines::LIST_LIMIT],
    orders: &mut [i32; sheet_lines::LIST_LIMIT],
    coefs: &mut [i32; sheet_read::COEFFICIENT_NUMBERS],
) -> Result<Lengths, u32>
    ensures { SheetHeld (spec.sheet_read text.now) result breaks.new degrees.new orders.new
        coefs.new }
{
    let mut positions = [0; sheet_lines::LIST_LIMIT];
    let lists = sheet_read::read(text, breaks, degrees, orders, coefs, &mut positions);
    lists.map_err(|place| sheet_place(place))
}

// The series of the file at the fronts of the buffers.
fn read_series(
    text: &[u8],
    names: &mut [u8; tucson_text::NAMES],
    years: &mut [i32; tucson_text::SERIES],
    counts: &mut [u32; tucson_text::SERIES],
    widths: &mut [i32; tucson_text::WIDTHS],
) -> Result<usize, Refusal>
    requires { length text.now ≤ spec.text_limit }
    ensures { SeriesHeld (spec.series_read text.now) result names.new years.new counts.new
        widths.new }
{
    let series = tucson_read::read(text, names, years, counts, widths);
    series.map_err(|refusal| Refusal {
        code: refusal.code,
        place: series_place(refusal.place),
    })
}

// What the curve call says of a sheet without positions.
fn check_curve(
    breaks: &[i32],
    degrees: &[i32],
    orders: &[i32],
    coefs: &[i32],
) -> Result<(), Refusal>
    ensures { reply result ≡ passed (curve_alone (space breaks.now degrees.now orders.now)
        coefs.now table_cells table_cells) }
{
    let mut num = [0; build_cells::TABLE_CELLS];
    let mut den = [1; build_cells::TABLE_CELLS];
    let mut values = [0; 1];
    let positions = [0; 1];
    curve::curve(
        breaks,
        degrees,
        orders,
        coefs,
        &positions[..0],
        &mut num,
        &mut den,
        &mut values,
    )?;
    Ok(())
}

// The file's series at the fronts of the buffers, and then what the curve call says of the sheet's lists, which stand at the fronts of
// theirs.
fn judge_file(
    text: &[u8],
    breaks: &[i32],
    b: usize,
    degrees: &[i32],
    d: usize,
    orders: &[i32],
    o: usize,
    coefs: &[i32],
    c: usize,
    names: &mut [u8; tucson_text::NAMES],
    years: &mut [i32; tucson_text::SERIES],
    counts: &mut [u32; tucson_text::SERIES],
    widths: &mut [i32; tucson_text::WIDTHS],
) -> Result<usize, Refusal>
    requires { FrontsAsk text.now b breaks.now d degrees.now o orders.now c coefs.now }
    ensures { SeriesHeld (file_judged text.now (space (take b breaks.now) (take d degrees.now)
        (take o orders.now)) (take c coefs.now))
        result names.new years.new counts.new widths.new }
{
    let series = read_series(text, names, years, counts, widths)?;
    check_curve(&breaks[..b], &degrees[..d], &orders[..o], &coefs[..c])?;
    Ok(series)
}

// Reads the input and tests it in the order of the refusals. Where none comes, the lists and series stand at the fronts of the
// buffers.
pub fn judge(
    input: &[u8],
    breaks: &mut [i32; sheet_lines::LIST_LIMIT],
    degrees: &mut [i32; sheet_lines::LIST_LIMIT],
    orders: &mut [i32; sheet_lines::LIST_LIMIT],
    coefs: &mut [i32; sheet_read::COEFFICIENT_NUMBERS],
    names: &mut [u8; tucson_text::NAMES],
    years: &mut [i32; tucson_text::SERIES],
    counts: &mut [u32; tucson_text::SERIES],
    widths: &mut [i32; tucson_text::WIDTHS],
) -> Result<Ready, Refusal>
    ensures { JudgedAs (spec.ready input.now) result breaks.new degrees.new orders.new
        coefs.new names.new years.new counts.new widths.new }
{
    if input.len() > limits::TEXT_LIMIT {
        return Err(Refusal {
            code: codes::SHORT_BUFFER,
            place: 0,
        });
    }
    let heading = rings_input::first_line(input).ok_or(Refusal {
        code: codes::SHEET_LINE,
        place: 1,
    })?;
    let from = heading.next;
    let to = rings_input::lines_end(input, from, SHEET_LINES);
    let sheet = read_sheet(&input[from..to], breaks, degrees, orders, coefs);
    let lists = sheet.map_err(|place| Refusal {
        code: codes::SHEET_LINE,
        place,
    })?;
    let series = judge_file(
        &input[to..],
        breaks,
        lists.breaks,
        degrees,
        lists.degrees,
        orders,
        lists.orders,
        coefs,
        lists.coefs,
        names,
        years,
        counts,
        widths,
    )?;
    Ok(Ready {
        wood: heading.wood,
        breaks: lists.breaks,
        degrees: lists.degrees,
        orders: lists.orders,
        coefs: lists.coefs,
        series,
    })
}
