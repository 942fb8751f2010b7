// The lines of the table of indices (§ 17): whether a buffer has room for them, and they put into it. The call refuses before
// anything is written.
#![tactic(auto)]

ghost use Rattle.std.specs.Prelude.{◌≡◌, ◌++◌, ◌+◌, ◌^◌, ◌<◌, ◌≤◌, leb, pos, ◌+ℤ◌, length};
ghost use Rattle.base_outcome.specs.Machine.{reply};
ghost use Rattle.spec_spline.specs.Reading.{wood_index};
ghost use Rattle.spec_table.specs.RingLines.{numbers_text};
ghost use Rattle.spec_table.specs.RingLinesCall.{ring_lines_end};
ghost use Rattle.curve_ordinates.specs.Wood.{wood_of};
ghost use Rattle.tucson_putting.specs.Putting.{Wrote};
ghost use Rattle.table_lines.specs.Machine.{rows, rows_text, RowsAsk, RowsFit, RowsEnd, lengths_fit};

// The year of the ring at a place of the list.
fn year_at(first: i32, j: usize) -> i64
    requires { j < 2 ^ 62 }
    ensures { result ≡ first +ℤ pos j }
{
    first as i64 + j as i64
}

// Whether the lines have room in so many bytes. What is left of these falls from line to line, so that no sum can overflow.
fn rows_fit(
    label: &[u8],
    first: i32,
    cell: usize,
    widths: &[i32],
    values: &[i32],
    indices: &[i64],
    room: usize,
) -> bool
    requires { RowsAsk (rows label.now first cell widths.now values.now indices.now) }
    ensures { result ≡ leb (length (rows_text (rows label.now first cell widths.now values.now
        indices.now) (length widths.now))) room }
{
    let mut left = room;
    for (j, width) in widths.iter().enumerate() {
        let year = year_at(first, j);
        let numbers = table_line::numbers_size(year, *width, values[2 * j + cell], indices[j]);
        let size = label.len() + numbers;
        if size > left {
            return false;
        }
        left -= size;
    }
    true
}

// The name of a line.
fn put_label(out: &mut [u8], at: usize, label: &[u8]) -> usize
    requires { at + length label.now ≤ length out.old }
    ensures { Wrote at label.now out.old out.new result }
{
    let end = at + label.len();
    out[at..end].copy_from_slice(label);
    end
}

// One line.
fn put_row(
    out: &mut [u8],
    at: usize,
    label: &[u8],
    year: i64,
    width: i32,
    value: i32,
    index: i64,
) -> usize
    requires { at + (length label.now + length (numbers_text year width value index)) ≤ length out.old }
    ensures { Wrote at (label.now ++ numbers_text year width value index) out.old out.new result }
{
    let next = put_label(out, at, label);
    table_line::put_numbers(out, next, year, width, value, index)
}

// All lines, from the buffer's start on.
fn put_rows(
    out: &mut [u8],
    label: &[u8],
    first: i32,
    cell: usize,
    widths: &[i32],
    values: &[i32],
    indices: &[i64],
) -> usize
    requires { RowsFit (rows label.now first cell widths.now values.now indices.now) (length out.old) }
    ensures { Wrote 0 (rows_text (rows label.now first cell widths.now values.now
        indices.now) (length widths.now)) out.old out.new result }
{
    let mut next = 0;
    for (j, width) in widths.iter().enumerate() {
        let year = year_at(first, j);
        next = put_row(
            out,
            next,
            label,
            year,
            *width,
            values[2 * j + cell],
            indices[j],
        );
    }
    next
}

// The lines at the buffer's front, or 1 where it is too short.
fn write_rows(
    label: &[u8],
    first: i32,
    cell: usize,
    widths: &[i32],
    values: &[i32],
    indices: &[i64],
    out: &mut [u8],
) -> Result<usize, base_outcome::Refusal>
    requires { RowsAsk (rows label.now first cell widths.now values.now indices.now) }
    ensures { RowsEnd (rows label.now first cell widths.now values.now indices.now)
        out.old out.new (reply result) }
{
    if !rows_fit(label, first, cell, widths, values, indices, out.len()) {
        return Err(base_outcome::Refusal {
            code: base_outcome::codes::SHORT_BUFFER,
            place: 0,
        });
    }
    let count = put_rows(out, label, first, cell, widths, values, indices);
    Ok(count)
}

// Whether the name has eight bytes, and there are an index and two values for each width.
fn lists_fit(name: &[u8], widths: &[i32], values: &[i32], indices: &[i64]) -> bool
    ensures { result ≡ lengths_fit name.now widths.now values.now indices.now }
{
    if name.len() != base_outcome::limits::NAME_COLUMNS {
        return false;
    }
    if indices.len() != widths.len() {
        return false;
    }
    values.len() == 2 * widths.len()
}

// The wood's cell in each pair of values.
fn wood_cell(wood: curve_ordinates::Wood) -> usize
    ensures { result ≡ wood_index (wood_of wood) }
{
    match wood {
        curve_ordinates::Wood::Earlywood => 0,
        curve_ordinates::Wood::Latewood => 1,
    }
}

// Writes a line for each ring: its series, year, width, curve and index, the curve by the named wood's value. Lists and buffer may
// have any length and content: what the definition refuses is refused, and nothing is written then.
pub fn ring_lines(
    wood: curve_ordinates::Wood,
    name: &[u8],
    first: i32,
    widths: &[i32],
    values: &[i32],
    indices: &[i64],
    out: &mut [u8],
) -> Result<usize, base_outcome::Refusal>
    ensures { let e = ring_lines_end (wood_of wood) (record {
      name = name.entry.now;
      first_year = first;
      widths = widths.now;
      values = values.now;
      indices = indices.now;
    }) out.old in
        (reply result ≡ e.answers) × (out.new ≡ e.text) }
{
    if !lists_fit(name, widths, values, indices) {
        return Err(base_outcome::Refusal {
            code: base_outcome::codes::LENGTHS,
            place: 0,
        });
    }
    if !tucson_lines::is_name(name, 0) {
        return Err(base_outcome::Refusal {
            code: base_outcome::codes::TUCSON_LINE,
            place: 0,
        });
    }
    let cell = wood_cell(wood);
    let mut label = [0; table_name::NAME_LIMIT];
    let size = table_name::put_name(&mut label, name);
    write_rows(&label[..size], first, cell, widths, values, indices, out)
}
