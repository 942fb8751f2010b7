// The factors of a step: 1 at the first row that the jumps span, 0 at the last, and w = S / jump at the rows between.
#![tactic(auto)]

ghost use Rattle.std.specs.Prelude.{◌≡◌, List, [], ℕ, pos, ◌<ℤ◌};
ghost use Rattle.base_exact.specs.Rational.{ℚ, ◌+ᵠ◌};
ghost use Rattle.base_fraction.specs.Machine.{value};
ghost use Rattle.spec_spline.specs.Step;
ghost use Rattle.base_fraction.specs.Fractions.{fractions};
ghost use Rattle.build_factors.specs.Machine.{code_of, next_factor, Plans};
ghost use Rattle.spec_spline.specs.Step.{plan_over};
ghost use Rattle.build_factors.specs.Jumps.{between, Spanned, FactorAsks};

use base_fraction::arrays::Fractions;
use base_fraction::{Fraction, arrays};
use base_outcome::codes;

// Why a step was not done: code 8 or code 9.
#[derive(Clone, Copy)]
pub enum StepRefusal {
    TooLarge,
    Shape,
}

impl StepRefusal {
    // Its number in the specification's table.
    pub fn code(self) -> u8
        ensures { result ≡ code_of self }
    {
        match self {
            StepRefusal::TooLarge => codes::TOO_LARGE,
            StepRefusal::Shape => codes::JUMPS,
        }
    }
}

// The rows f to l and their factors, from index 0 on.
#[derive(Clone, Copy)]
pub struct RowFactors {
    pub f: usize,
    pub l: usize,
    pub of: Fractions,
}

// No rows and no factors, with which the factors of a step begin.
pub fn no_factors() -> RowFactors
    ensures { (result.f ≡ 0) × ((result.l ≡ 0) × (result.of ≡ fractions [])) }
{
    RowFactors {
        f: 0,
        l: 0,
        of: arrays::no_fractions(),
    }
}

// A factor w = S / jump with its partial sum S.
#[derive(Clone, Copy)]
pub struct NextFactor {
    pub sum: Fraction,
    pub w: Fraction,
}

fn strictly_between(w: Fraction) -> bool
    requires { pos 0 <ℤ w.den }
    ensures { result ≡ between (value w) }
{
    if base_arithmetic::is_positive(w) {
        return base_arithmetic::is_below_one(w);
    }
    false
}

// The next factor, from the sum of the jumps before and the jump itself.
fn factor(before: Fraction, jump: Fraction) -> Result<NextFactor, StepRefusal>
    requires { FactorAsks before jump }
    ensures { (j : ℕ) → result ≡ next_factor (value before +ᵠ value jump)
        (Step.quotient_factor j (value before +ᵠ value jump) (value jump)) }
{
    let sum = base_arithmetic::sum(before, jump).ok_or(StepRefusal::TooLarge)?;
    let w = base_arithmetic::quotient(sum, jump).ok_or(StepRefusal::TooLarge)?;
    if strictly_between(w) {
        return Ok(NextFactor { sum, w });
    }
    Err(StepRefusal::Shape)
}

// The factors of the rows f to l, from index 0 on: 1 at f, w for the rows between, 0 at l.
pub fn factors(js: Fractions, f: usize, l: usize) -> Result<RowFactors, StepRefusal>
    requires { Spanned js f l }
    ensures { (qs : List ℚ) (j : ℕ) → js ≡ fractions qs → Plans (plan_over j qs (record { f = f; l = l })) result }
{
    let mut ws = no_factors().of;
    ws.num[0] = 1;
    let mut sum = arrays::fraction_at(&js.num, &js.den, f);
    for i in f + 1..l {
        let jump = arrays::fraction_at(&js.num, &js.den, i);
        let next = factor(sum, jump)?;
        sum = next.sum;
        ws.num[i - f] = next.w.num;
        ws.den[i - f] = next.w.den;
    }
    Ok(RowFactors { f, l, of: ws })
}
