// The Bernstein ordinates of the curve of one wood part, in 256ths: for each column the sum of the rounded terms, within the
// limits of the part's coefficients with weight on it.
#![tactic(auto)]

ghost use Rattle.std.specs.Prelude.{◌≡◌, cond, length};
ghost use Rattle.std.specs.Int.Signed.{le_z, lt_z};
ghost use Rattle.base_exact.specs.Tabulate.{tab};
ghost use Rattle.spec_spline.specs.Table.{Table};
ghost use Rattle.spec_spline.specs.Reading;
ghost use Rattle.build_cells.specs.Held.{Holds};
ghost use Rattle.curve_ordinates.specs.Ordinates.{given, terms_of, Added, entries};
ghost use Rattle.curve_ordinates.specs.Ordinates.{TermAsks, LimitsSmall, ColumnAsks, OrdinatesAsk};
ghost use Rattle.curve_ordinates.specs.Wood.{wood_of};

use base_outcome::limits;

// A wood part.
#[derive(Clone, Copy)]
pub enum Wood {
    Earlywood,
    Latewood,
}

// A column's terms so far: their sum, and the least and greatest coefficient with weight. `some` is false before the first.
#[derive(Clone, Copy)]
pub struct Terms {
    pub some: bool,
    pub sum: i64,
    pub least: i64,
    pub greatest: i64,
}

// The lesser of a and b, or b where a is not known.
fn lesser(some: bool, a: i64, b: i64) -> i64
    ensures { result ≡ Reading.preferred le_z (given some a) b }
{
    if some {
        if a <= b {
            return a;
        }
    }
    b
}

// The greater of a and b, or b where a is not known.
fn greater(some: bool, a: i64, b: i64) -> i64
    ensures { result ≡ Reading.preferred (λ y z. le_z z y) (given some a) b }
{
    if some {
        if b <= a {
            return a;
        }
    }
    b
}

// One more coefficient with weight num / den.
fn with_term(before: Terms, a: i64, num: i64, den: i64) -> Terms
    requires { TermAsks before.sum a num den }
    ensures { Added before a num den result }
{
    let term = base_division::round_div(limits::WIDE_FINENESS * a * num, den);
    let least = lesser(before.some, before.least, a);
    let greatest = greater(before.some, before.greatest, a);
    Terms {
        some: true,
        sum: before.sum + term,
        least: least,
        greatest: greatest,
    }
}

fn at_most(high: i64, x: i64) -> i64
    ensures { result ≡ cond (lt_z high x) high x }
{
    if high < x {
        return high;
    }
    x
}

// The sum within 256 times the least and the greatest coefficient.
fn limited(terms: Terms) -> i64
    requires { LimitsSmall terms }
    ensures { result ≡ Reading.at_most (given terms.some terms.greatest)
        (Reading.at_least (given terms.some terms.least) terms.sum) }
{
    let sum = terms.sum;
    if !terms.some {
        return sum;
    }
    let low = limits::WIDE_FINENESS * terms.least;
    let high = limits::WIDE_FINENESS * terms.greatest;
    if sum < low {
        return at_most(high, low);
    }
    at_most(high, sum)
}

// Which of each row's two coefficients is the part's.
fn wood_index(wood: Wood) -> usize
    ensures { result ≡ Reading.wood_index (wood_of wood) }
{
    match wood {
        Wood::Earlywood => 0,
        Wood::Latewood => 1,
    }
}

// The terms of column c over the first n rows, each with the coefficient at this index among its two.
fn column_terms(num: &[i64], den: &[i64], coefs: &[i32], index: usize, n: usize, c: usize) -> Terms
    requires { ColumnAsks num.now den.now coefs.now index n c }
    ensures { (t : Table) → Holds num.now den.now t
        → result ≡ terms_of t (entries coefs.now index) c n }
{
    let mut all = Terms {
        some: false,
        sum: 0,
        least: 0,
        greatest: 0,
    };
    for i in 0..n {
        let at = build_cells::ROW_CELLS * i + c;
        let x = num[at];
        if x != 0 {
            let entry = 2 * i + index;
            let a = coefs[entry] as i64;
            let d = den[at];
            all = with_term(all, a, x, d);
        }
    }
    all
}

// The ordinates of a wood part in the first columns, one for each number of the list.
pub fn ordinates(num: &[i64], den: &[i64], coefs: &[i32], wood: Wood, n: usize, os: &mut [i32])
    requires { OrdinatesAsk num.now den.now coefs.now n os.old }
    ensures { (t : Table) → Holds num.now den.now t → length t ≡ n
        → os.new ≡ tab (length os.old) (Reading.ordinate t (Reading.coefficient (wood_of wood) coefs.now)) }
{
    let index = wood_index(wood);
    for (c, o) in os.iter_mut().enumerate() {
        let all = column_terms(num, den, coefs, index, n, c);
        *o = limited(all) as i32;
    }
}
