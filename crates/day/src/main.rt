// The day program: reads a rule and a day from standard input, and prints for each value of the setting what the day leaves, or the refusal.
//
// What is printed for an input is the contract of `output::day`; this file only reads, calls and writes.
#![tactic(auto)]

mod output; // output.rt: what is printed for an input

use self::output::day;
use console::{read_full, write_all};
use std::io;

fn main(rt: HostRuntime) -> io::Result<()> {
    // No input of more than 93,221 bytes is accepted, and the first of them tell its refusal: docs/DECISIONS.md.
    let mut input = [0u8; 98304];
    let length = read_full(&rt, &mut input)?;
    let mut printed = [0u8; 310800];
    let size = day(&input[..length], &mut printed);
    write_all(&rt, &printed[..size])
}
