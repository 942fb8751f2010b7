// The filter: a Tucson text in, the same series in thousandths out, on bytes.
#![tactic(auto)]

ghost use Rattle.std.specs.Prelude.{◌≡◌, ◌≤◌, length};
ghost use Rattle.base_print.specs.Buffer.{Prints};
ghost use Rattle.spec_tucson.specs.TextReading.{read_text};
ghost use Rattle.spec_tucson.specs.WriteCall.{total};
ghost use Rattle.spec_tucson.specs.Filter.{text_limit, outcome_text, filtered};

use base_outcome::{codes, limits};

// The most series of a text: each has at least a line of one field and byte 10.
pub const SERIES: usize = limits::TEXT_LIMIT / (limits::HEAD_COLUMNS + limits::FIELD_COLUMNS + 1);

// The bytes of their names.
pub const NAMES: usize = limits::NAME_COLUMNS * SERIES;

// The most widths: each has the columns of a field.
pub const WIDTHS: usize = limits::TEXT_LIMIT / limits::FIELD_COLUMNS;

// The sum of the counts.
fn sum(counts: &[u32]) -> usize
    requires { total counts.now ≤ text_limit }
    ensures { result ≡ total counts.now }
{
    counts.iter().map(|count| *count as usize).sum()
}

// The series of a text that is not too long, read and written again, or the line of its refusal. What is read can always be
// written. The lent lists take what is read: what they hold before does not matter, and what they hold afterwards is of no use.
fn rewrite_over(
    input: &[u8],
    names: &mut [u8; NAMES],
    years: &mut [i32; SERIES],
    counts: &mut [u32; SERIES],
    widths: &mut [i32; WIDTHS],
    out: &mut [u8; limits::TEXT_LIMIT],
) -> usize
    requires { length input.now ≤ text_limit }
    ensures { Prints (length out.new) (outcome_text (read_text input.now)) out.old
        out.new result }
{
    let series = match tucson_read::read(input, names, years, counts, widths) {
        Ok(series) => series,
        Err(refusal) => return base_print::refusal(refusal.code, refusal.place, out),
    };
    let names = &names[..series * limits::NAME_COLUMNS];
    let counts = &counts[..series];
    let widths = &widths[..sum(counts)];
    let text = tucson_write::write(names, &years[..series], counts, widths, out);
    text.unwrap()
}

// The same with lists of its own.
fn rewrite(input: &[u8], out: &mut [u8; limits::TEXT_LIMIT]) -> usize
    requires { length input.now ≤ text_limit }
    ensures { Prints (length out.new) (outcome_text (read_text input.now)) out.old
        out.new result }
{
    let mut names = [0u8; NAMES];
    let mut years = [0i32; SERIES];
    let mut counts = [0u32; SERIES];
    let mut widths = [0i32; WIDTHS];
    rewrite_over(input, &mut names, &mut years, &mut counts, &mut widths, out)
}

// The whole program: what the filter gives for a text, at the front of the lent buffer, which takes it whole. The answer is its
// length.
pub fn filter(input: &[u8], out: &mut [u8; limits::TEXT_LIMIT]) -> usize
    ensures { Prints (length out.new) (filtered input.now) out.old out.new result }
{
    if input.len() > limits::TEXT_LIMIT {
        return base_print::refusal(codes::SHORT_BUFFER, 0, out);
    }
    rewrite(input, out)
}
