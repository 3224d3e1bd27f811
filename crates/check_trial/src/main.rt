// Runs the checks of both forms on the tables of standard input, then on tables that are made here.
#![tactic(auto)]

mod made; // made.rt: tables that are made here: deep ones, long ones, large switches, one without a header
mod number; // number.rt: the decimal numbers of a text
mod tables; // tables.rt: the tables of a text
mod verdict; // verdict.rt: checks a table, and writes what the check answers

use console::read_full;
use std::io;
use words::Form;

fn main(rt: HostRuntime) -> io::Result<()> {
    let mut text = [0u8; 65536];
    let n = read_full(&rt, &mut text)?;
    tables::check_all(&rt, &text[..n])?;
    made::check_no_header(&rt)?;
    made::check_nested(&rt, Form::Source, 64)?;
    made::check_nested(&rt, Form::Source, 65)?;
    made::check_nested(&rt, Form::Source, 2048)?;
    made::check_list(&rt, 2048)?;
    made::check_list(&rt, 2049)?;
    made::check_switch(&rt, 1, 2044)?;
    made::check_switch(&rt, 1, 0)?;
    made::check_switch(&rt, 1048576, 2044)?;
    made::check_switch(&rt, 1048576, 2043)?;
    // 40,980 rows, depth 512, 20,189 gotos that leave 511 lists: accepted.
    made::check_gotos(&rt, 512)?;
    // One level more: 9 at the first row of depth 513.
    made::check_gotos(&rt, 513)?;
    // Each row but the last owns the next: 9 again.
    made::check_nested(&rt, Form::Kernel, 40980)?;
    made::check_many(&rt)
}
