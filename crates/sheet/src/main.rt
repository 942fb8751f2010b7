// Reads a sheet from standard input and writes its printout to standard output.
#![tactic(auto)]

ghost use Rattle.std.specs.Prelude.{◌≤◌, length};
ghost use Rattle.sheet_text.specs.Limit.{printout_limit};

use base_outcome::limits;
use std::io;
use std::io::Print;

// One byte more than the longest sheet, so that a longer text is seen to be too long.
const INPUT_BYTES: usize = limits::SHEET_LIMIT + 1;

// The most bytes that a printout has (`printout_limit`), so none is cut.
const OUTPUT_BYTES: usize = 2189079;

// Writes the printout of a sheet over the lent buffer.
fn write_over<P: Print>(to: &P, input: &[u8], out: &mut [u8]) -> io::Result<()>
    requires { printout_limit ≤ length out.old }
{
    let count = sheet_text::sheet(input, out);
    to.write_all(&out[..count])
}

// Writes the printout of a sheet.
fn write_printout<P: Print>(to: &P, input: &[u8]) -> io::Result<()> {
    let mut out = [0u8; OUTPUT_BYTES];
    write_over(to, input, &mut out)
}

// Reads a sheet into the lent buffer and writes its printout.
fn print_sheet(rt: &HostRuntime, input: &mut [u8]) -> io::Result<()> {
    let read = base_input::read_input(&mut rt.stdin(), input);
    if let Some(error) = read.failed {
        return eprintln!(rt; "read: {error}");
    }
    let n = read.count;
    match write_printout(rt, &input[..n]) {
        Ok(()) => Ok(()),
        Err(error) => eprintln!(rt; "write: {error}"),
    }
}

fn main(rt: HostRuntime) -> io::Result<()> {
    let mut input = [0u8; INPUT_BYTES];
    print_sheet(&rt, &mut input)
}
