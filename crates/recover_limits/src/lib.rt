// The refusal 18 of a call for coefficients: ordinates that are not as many as the columns, or out of range.
#![tactic(auto)]

ghost use Rattle.std.specs.Prelude.{◌≡◌, [], ◌≤◌, length};
ghost use Rattle.spec_spline.specs.Space.{segment_limit};
ghost use Rattle.build_space.specs.Machine.{space};
ghost use Rattle.base_outcome.specs.Machine.{reply};
ghost use Rattle.build_space.specs.Legal.{DegreesLegal};
ghost use Rattle.recover_limits.specs.Ordinates.{ordinates_checked};

use base_outcome::{Refusal, codes, limits};

// Ordinates run from minus this to this.
const ORDINATE_LIMIT: i32 = limits::FINENESS * curve_entries::COEFFICIENT_LIMIT;

// Code 18 of a legal space: the count first.
pub fn check_ordinates(degrees: &[i32], ordinates: &[i32]) -> Result<(), Refusal>
    requires { (length degrees.now ≤ segment_limit) × DegreesLegal degrees.now }
    ensures { reply result ≡ ordinates_checked (space [] degrees.now []) ordinates.now }
{
    if ordinates.len() != build_space::first_column(degrees, degrees.len()) {
        return Err(Refusal {
            code: codes::ORDINATE,
            place: base_outcome::LARGEST_PLACE,
        });
    }
    let bad = curve_entries::first_outside(ordinates, 0 - ORDINATE_LIMIT, ORDINATE_LIMIT);
    base_outcome::refuse_first(codes::ORDINATE, bad)
}
