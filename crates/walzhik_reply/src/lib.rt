// The struct with which a call for C and Rust answers by a count: both libraries give it, so it stands below both.
#![tactic(auto)]

ghost use Rattle.std.specs.Prelude.{◌≡◌};
ghost use Rattle.base_outcome.specs.Machine.{reply};
ghost use Rattle.walzhik_reply.specs.Machine.{replied};

use base_outcome::Refusal;

// The count of rows, positions, rings, series or bytes, with code 0 and place 0; or count 0 with a refusal's code and place.
#[repr(C)]
#[derive(Clone, Copy)]
pub struct Reply {
    pub count: u64,
    pub number: u32,
    pub place: u32,
}

// The struct of what a call answers.
pub fn reply_of(answer: Result<usize, Refusal>) -> Reply
    ensures { result ≡ replied (reply answer) }
{
    match answer {
        Ok(count) => Reply {
            count: count as u64,
            number: 0,
            place: 0,
        },
        Err(refusal) => Reply {
            count: 0,
            number: refusal.code as u32,
            place: refusal.place,
        },
    }
}
