// Writing Tucson decadal files (§ 14): four lists of series into a lent text. What can be refused is
// tested before the first byte is written.
#![tactic(auto)]

ghost use Rattle.std.specs.Prelude.{◌≡◌};
ghost use Rattle.spec_tucson.specs.WriteCall.{write_end};
ghost use Rattle.base_outcome.specs.Machine.{reply};

use base_outcome::{Refusal, codes};

// Writes the series with these names, eight bytes each, first years, counts of widths, and widths in thousandths, one series
// after another. Lists and buffers may have any length and content: what the definition refuses is refused, and nothing is
// written then.
pub fn write(
    names: &[u8],
    years: &[i32],
    counts: &[u32],
    widths: &[i32],
    text: &mut [u8],
) -> Result<usize, Refusal>
    ensures { let e = write_end names.now years.now counts.now widths.now
        text.old in
        (reply result ≡ e.answers) × (text.new ≡ e.text) }
{
    if !tucson_series::lists::lists_fit(names, years, counts, widths) {
        return Err(Refusal {
            code: codes::LENGTHS,
            place: 0,
        });
    }
    if let Some(k) = tucson_series::writable::first_unwritable(names, years, counts, widths) {
        return Err(Refusal {
            code: codes::TUCSON_LINE,
            place: base_outcome::place(k),
        });
    }
    if !tucson_series::room::text_fits(years, counts, text.len()) {
        return Err(Refusal {
            code: codes::SHORT_BUFFER,
            place: 0,
        });
    }
    Ok(tucson_putting::put_all(names, years, counts, widths, text))
}
