// mep-statement: reads a schedule and a month's activity from standard input, and prints every firm's statement. What it prints is what
// `report` writes; only reading and printing stand here.
#![tactic(auto)]

ghost use Rattle.std.specs.Prelude.{◌≡◌, ◌+◌, length};
ghost use Rattle.input.specs.Input.{input_limit};
ghost use Rattle.report.specs.Answer.{output_size};

use input::INPUT;
use reading::read_full;
use report::{OUTPUT, report};
use std::io;

// One byte more than the program takes, so that a longer input is seen to be too long.
fn input_buffer() -> [u8; INPUT + 1]
    ensures { input_limit + 1 ≡ length result }
{
    [0; INPUT + 1]
}

// No report is longer.
fn output_buffer() -> [u8; OUTPUT]
    ensures { output_size ≡ length result }
{
    [0; OUTPUT]
}

fn main(rt: HostRuntime) -> io::Result<()> {
    let mut input = input_buffer();
    let n = read_full(&mut rt.reader(), &mut input)?;
    let mut out = output_buffer();
    // Never cut, for no report is longer than this output (report_laws).
    let bytes = report(&input[..n], &mut out).unwrap_or_else(|cut| cut.bytes);
    rt.write_all(&out[..bytes])
}
