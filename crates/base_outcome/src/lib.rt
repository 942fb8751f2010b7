// What the calls end with: an answer, or a refusal with code and place; and the cap on places.
// The definitions are apart from those of the curves, since Tucson files end in the same way.
#![tactic(auto)]

pub mod codes;
pub mod limits;

ghost use Rattle.std.specs.Prelude.{◌≡◌, ℕ};
ghost use Rattle.std.proofs.Math.Option as math;
ghost use Rattle.base_outcome.specs.Outcome.{capped, answer};
ghost use Rattle.base_outcome.specs.Tests.{refuse_first};
ghost use Rattle.base_outcome.specs.Machine.{reply, found};

// The largest place, which also stands for anything larger.
pub const LARGEST_PLACE: u32 = 4294967295;

// Why a call was refused: the number of the specification's table, and the place.
#[derive(Clone, Copy)]
pub struct Refusal {
    pub code: u8,
    pub place: u32,
}

// The place of an index.
pub fn place(i: usize) -> u32
    ensures { result ≡ capped i }
{
    if i < LARGEST_PLACE as usize {
        return i as u32;
    }
    LARGEST_PLACE
}

// The refusal at the first index that breaks a rule, or nothing.
pub fn refuse_first(code: u8, first: Option<usize>) -> Result<(), Refusal>
    ensures { (o : math.Option ℕ) → first ≡ found o → reply result ≡ refuse_first code o (answer tt) }
{
    match first {
        Some(i) => Err(Refusal {
            code,
            place: place(i),
        }),
        None => Ok(()),
    }
}
