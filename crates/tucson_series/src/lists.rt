// Code 2: whether the four lists fit each other.
ghost use Rattle.std.specs.Prelude.{◌≡◌, eqb};
ghost use Rattle.spec_tucson.specs.WriteCall.{total, lists_fit};

use base_outcome::limits;

// Whether the counts add up to this number. What is left of it falls from count to count, so that no sum can overflow.
fn adds_up(counts: &[u32], sum: usize) -> bool
    ensures { result ≡ eqb (total counts.now) sum }
{
    let mut left = sum;
    for count in counts {
        let count = *count as usize;
        if count > left {
            return false;
        }
        left -= count;
    }
    left == 0
}

// A name of eight bytes and a count for each year, and the counts add up to the widths.
pub fn lists_fit(names: &[u8], years: &[i32], counts: &[u32], widths: &[i32]) -> bool
    ensures { result ≡ lists_fit names.now years.now counts.now widths.now }
{
    if names.len() / limits::NAME_COLUMNS != years.len() {
        return false;
    }
    if names.len() % limits::NAME_COLUMNS != 0 {
        return false;
    }
    if counts.len() != years.len() {
        return false;
    }
    adds_up(counts, widths.len())
}
