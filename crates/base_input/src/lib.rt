// Standard input read to its end. A read that fails is told from the end of the input: a text that is not all there must not be taken
// for a shorter one.
#![tactic(auto)]

ghost use Rattle.io.specs.Counts.{IsPrefixLen};

use std::io::{Error, Read};

// How many bytes came, and why the read failed, where it was a failed read that ended them.
#[derive(Clone, Copy)]
pub struct Input {
    pub count: usize,
    pub failed: Option<Error>,
}

// Reads until the buffer is full, the input ends or a read fails.
pub fn read_input<R: Read>(input: &mut R, buf: &mut [u8]) -> Input
    ensures { IsPrefixLen result.count buf.new }
{
    let mut done = 0;
    let mut failed = None;
    // A `while`: the step is how many bytes a read gave.
    while done < buf.len() {
        match input.read(&mut buf[done..]) {
            Ok(0) => break,
            Ok(n) => done += n,
            Err(error) => {
                failed = Some(error);
                break;
            }
        }
    }
    Input {
        count: done,
        failed,
    }
}
