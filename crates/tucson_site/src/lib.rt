// The data bank's site name behind the columns of a line: blanks, then two to four letters, three digits and perhaps one more letter.
#![tactic(auto)]

ghost use Rattle.std.specs.Prelude.{◌≡◌, ◌+◌};
ghost use Rattle.std.proofs.Math.Seq.{slice};
ghost use Rattle.base_text.specs.Bytes.{Range};
ghost use Rattle.spec_tucson.specs.Shown.{expanded};
ghost use Rattle.spec_tucson.specs.StrictLine.{is_letter, letters_before, digits_before, is_site_name, line_columns};
ghost use Rattle.tucson_site.specs.Machine.{gap_before, site_behind};

const LETTERS: usize = 2;

const MOST_LETTERS: usize = 4;

const DIGITS: usize = 3;

// Whether a byte is one of A to Z and a to z.
pub fn is_letter(byte: u8) -> bool
    ensures { result ≡ is_letter byte }
{
    if byte < b'A' {
        return false;
    }
    if byte <= b'Z' {
        return true;
    }
    if byte < b'a' {
        return false;
    }
    byte <= b'z'
}

// The first index from the one up to the other without a letter, or the end.
fn letters_end(text: &[u8], from: usize, to: usize) -> usize
    requires { Range text.now from to }
    ensures { result ≡ from + letters_before (slice from to text.now) }
{
    let letters = text[from..to].iter().position(|x| !is_letter(*x));
    from + letters.unwrap_or(to - from)
}

// The first one without a digit.
fn digits_end(text: &[u8], from: usize, to: usize) -> usize
    requires { Range text.now from to }
    ensures { result ≡ from + digits_before (slice from to text.now) }
{
    let digits = text[from..to].iter().position(|x| !x.is_ascii_digit());
    from + digits.unwrap_or(to - from)
}

// The first one with neither a blank nor a tab.
fn gap_end(text: &[u8], from: usize, to: usize) -> usize
    requires { Range text.now from to }
    ensures { result ≡ from + gap_before (slice from to text.now) }
{
    let gap = text[from..to]
        .iter()
        .position(|x| !tucson_columns::is_gap(*x));
    from + gap.unwrap_or(to - from)
}

// Whether the part is a site name.
fn is_site_name(text: &[u8], from: usize, to: usize) -> bool
    requires { Range text.now from to }
    ensures { result ≡ is_site_name (slice from to text.now) }
{
    let number = letters_end(text, from, to);
    if number - from < LETTERS {
        return false;
    }
    if number - from > MOST_LETTERS {
        return false;
    }
    let last = digits_end(text, number, to);
    if last - number != DIGITS {
        return false;
    }
    if to - number > DIGITS + 1 {
        return false;
    }
    letters_end(text, last, to) == to
}

// Whether the part, behind the columns of a line, is shown as blanks and a site name.
pub fn has_site(text: &[u8], from: usize, to: usize) -> bool
    requires { Range text.now from to }
    ensures { result ≡ site_behind (expanded line_columns (slice from to text.now)) }
{
    let name = gap_end(text, from, to);
    if name == from {
        return false;
    }
    is_site_name(text, name, to)
}
