// Runs a script of calls and prints the answer of each.
#![tactic(auto)]

mod answers;
mod commands;
mod digest;
mod hex;
mod runner;
mod script;
mod stop;

use answers::say;
use commands::Commands;
use reading::read_full;
use runner::Runner;
use script::Script;
use std::io;
use stop::Stop;

// The longest script, in bytes, and the largest book, in numbers.
const SCRIPT: usize = 262_144;

const BOOK: usize = 16_384;

// Runs the commands one after the other, to the script's end or to one that cannot be run.
fn run_script(rt: &impl Print, script: &[u8], book: &mut [u64]) -> Result<(), Stop> {
    let mut runner = Runner::new(book);
    for command in Commands(Script::new(script)) {
        runner.run(rt, command?)?;
    }
    Ok(())
}

fn main(rt: HostRuntime) -> io::Result<()> {
    // A byte more than the longest script, so that a longer one is noticed.
    let mut script = [0u8; SCRIPT + 1];
    let n = read_full(&mut rt.reader(), &mut script)?;
    if SCRIPT < n {
        say(println!(rt; "script too long"));
        return Ok(());
    }
    let mut book = [0u64; BOOK];
    if let Err(stop) = run_script(&rt, &script[..n], &mut book) {
        say(println!(rt; "{stop}"));
    }
    Ok(())
}
