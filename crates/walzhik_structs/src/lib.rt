// The structs with which the calls of the first library answer beside a count: a position, the counts of a cleaned file, a piece.
#![tactic(auto)]

ghost use Rattle.std.specs.Prelude.{◌≡◌};
ghost use Rattle.base_outcome.specs.Outcome.{Outcome, answer};
ghost use Rattle.base_outcome.specs.Machine.{reply};
ghost use Rattle.tucson_clean.specs.Machine.{counts};
ghost use Rattle.spec_calls.specs.Pieces as pieces;
ghost use Rattle.curve_pieces.specs.Machine.{Shows, Replies};
ghost use Rattle.walzhik_structs.specs.Machine.{reached};
ghost use Rattle.walzhik_structs.specs.Piece.{Sent};
ghost use Rattle.walzhik_structs.specs.File.{cleaned};

use base_outcome::Refusal;

// The position with code 0 and place 0; or position 0 with a refusal's code and place.
#[repr(C)]
#[derive(Clone, Copy)]
pub struct Reach {
    pub position: i32,
    pub number: u32,
    pub place: u32,
}

// How many bytes, lines and notes there are, with code 0 and place 0; or three zeros with a refusal's code and place.
#[repr(C)]
#[derive(Clone, Copy)]
pub struct Cleaned {
    pub bytes: u64,
    pub lines: u64,
    pub notes: u64,
    pub number: u32,
    pub place: u32,
}

// A piece: code 0 and place 0, its degree from 1 to 3, degree + 1 ordinates and its ends; or a refusal's code and place. All
// other numbers are 0.
#[repr(C)]
#[derive(Clone, Copy)]
pub struct Piece {
    pub number: u32,
    pub place: u32,
    pub degree: u32,
    pub unused: u32,
    pub o0: f64,
    pub o1: f64,
    pub o2: f64,
    pub o3: f64,
    pub start: f64,
    pub end: f64,
}

// The struct of what the call for laboratories' files answers.
pub fn cleaned_of(answer: Result<tucson_clean::Counts, Refusal>) -> Cleaned
    ensures { result ≡ cleaned (counts answer) }
{
    match answer {
        Ok(made) => Cleaned {
            bytes: made.bytes as u64,
            lines: made.lines as u64,
            notes: made.notes as u64,
            number: 0,
            place: 0,
        },
        Err(refusal) => Cleaned {
            bytes: 0,
            lines: 0,
            notes: 0,
            number: refusal.code as u32,
            place: refusal.place,
        },
    }
}

// The struct of what a reach call answers.
pub fn reach_of(answer: Result<i32, Refusal>) -> Reach
    ensures { result ≡ reached (reply answer) }
{
    match answer {
        Ok(position) => Reach {
            position,
            number: 0,
            place: 0,
        },
        Err(refusal) => Reach {
            position: 0,
            number: refusal.code as u32,
            place: refusal.place,
        },
    }
}

// A piece with its degree and its four ordinates.
fn of_degree(degree: u32, o0: f64, o1: f64, o2: f64, o3: f64, ends: curve_pieces::Ends) -> Piece
    ensures { result ≡ record {
      number = 0;
      place = 0;
      degree = degree;
      unused = 0;
      o0 = o0;
      o1 = o1;
      o2 = o2;
      o3 = o3;
      start = ends.start;
      end = ends.end;
    } }
{
    Piece {
        number: 0,
        place: 0,
        degree,
        unused: 0,
        o0,
        o1,
        o2,
        o3,
        start: ends.start,
        end: ends.end,
    }
}

fn sent(drawing: curve_pieces::Drawing) -> Piece
    ensures { (p : pieces.Piece) → Shows drawing p → Sent result (answer p) }
{
    let curve = drawing.curve;
    match curve {
        curve_drawing::Curve::Line(a, b) => of_degree(1, a, b, 0.0, 0.0, drawing.ends),
        curve_drawing::Curve::Quadratic(a, b, c) => of_degree(2, a, b, c, 0.0, drawing.ends),
        curve_drawing::Curve::Cubic(a, b, c, d) => of_degree(3, a, b, c, d, drawing.ends),
    }
}

// The struct of what a piece call answers.
pub fn piece_of(answer: Result<curve_pieces::Drawing, Refusal>) -> Piece
    ensures { (o : Outcome pieces.Piece) → Replies answer o → Sent result o }
{
    match answer {
        Ok(drawing) => sent(drawing),
        Err(refusal) => Piece {
            number: refusal.code as u32,
            place: refusal.place,
            degree: 0,
            unused: 0,
            o0: 0.0,
            o1: 0.0,
            o2: 0.0,
            o3: 0.0,
            start: 0.0,
            end: 0.0,
        },
    }
}
