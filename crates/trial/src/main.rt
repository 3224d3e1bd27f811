// The trial program: reads a source text from standard input, runs it in both forms, and prints the two lines or the refusal.
//
// What is printed for a text is the contract of `output::trial`; this file only reads, calls and writes.
#![tactic(auto)]

mod output; // output.rt: what is printed for a text
mod runs; // runs.rt: both runs, each from zeros, and their lines

use self::output::trial;
use console::{read_full, write_all};
use std::io;

fn main(rt: HostRuntime) -> io::Result<()> {
    // One byte more than a text may have, so that a longer one is seen to be longer.
    let mut text = [0u8; 16385];
    let length = read_full(&rt, &mut text)?;
    let mut printed = [0u8; 24672];
    let size = trial(&text[..length], &mut printed);
    write_all(&rt, &printed[..size])
}
