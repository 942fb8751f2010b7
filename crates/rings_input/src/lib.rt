// The parts of the input of the program `rings`: the wood that the first line names, and where the sheet's five lines end.
#![tactic(auto)]

ghost use Rattle.std.specs.Prelude.{◌≡◌, ◌+◌, ◌≤◌, length, drop};
ghost use Rattle.spec_rings.specs.Parts;
ghost use Rattle.rings_input.specs.Machine.{HeadedAs};

use curve_ordinates::Wood;

// What the first line says: the wood. The next line begins at the index.
#[derive(Clone, Copy)]
pub struct Heading {
    pub wood: Wood,
    pub next: usize,
}

// The first line of the input, if it names a wood.
pub fn first_line(text: &[u8]) -> Option<Heading>
    ensures { HeadedAs text.now (Parts.headed text.now) result }
{
    let end = text.len();
    if base_text::fields::begins(text, 0, end, b"wood=earlywood\n") {
        return Some(Heading {
            wood: Wood::Earlywood,
            next: 15,
        });
    }
    if base_text::fields::begins(text, 0, end, b"wood=latewood\n") {
        return Some(Heading {
            wood: Wood::Latewood,
            next: 14,
        });
    }
    None
}

// The index behind so many bytes 10 from an index on, or the end where there are fewer.
pub fn lines_end(text: &[u8], from: usize, count: usize) -> usize
    requires { from ≤ length text.now }
    ensures value { result ≡ from + Parts.lines_end count (drop from text.now) }
    ensures upper_bound { result ≤ length text.now }
{
    let end = text.len();
    let mut at = from;
    for _ in 0..count {
        let stop = base_text::fields::find(text, at, end, 10);
        if stop == end {
            return end;
        }
        at = stop + 1;
    }
    at
}
