// Reads a Tucson text from standard input and writes its series in thousandths to standard output.
#![tactic(auto)]

use base_outcome::limits;
use std::io;
use std::io::Print;

// One byte more than the longest text, so that a longer one is seen to be too long.
const INPUT_BYTES: usize = limits::TEXT_LIMIT + 1;

// Writes the series of a text over the lent buffer.
fn write_over<P: Print>(
    to: &P,
    input: &[u8],
    out: &mut [u8; limits::TEXT_LIMIT],
) -> io::Result<()> {
    let count = tucson_text::filter(input, out);
    to.write_all(&out[..count])
}

// Writes the series of a text.
fn write_series<P: Print>(to: &P, input: &[u8]) -> io::Result<()> {
    let mut out = [0u8; limits::TEXT_LIMIT];
    write_over(to, input, &mut out)
}

// Reads a text into the lent buffer and writes its series.
fn print_series(rt: &HostRuntime, input: &mut [u8]) -> io::Result<()> {
    let read = base_input::read_input(&mut rt.stdin(), input);
    if let Some(error) = read.failed {
        return eprintln!(rt; "read: {error}");
    }
    let n = read.count;
    match write_series(rt, &input[..n]) {
        Ok(()) => Ok(()),
        Err(error) => eprintln!(rt; "write: {error}"),
    }
}

fn main(rt: HostRuntime) -> io::Result<()> {
    let mut input = [0u8; INPUT_BYTES];
    print_series(&rt, &mut input)
}
