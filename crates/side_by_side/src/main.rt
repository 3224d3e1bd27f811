// Shows each rule of standard input in both forms, side by side, and what their runs give.
//
// A rule is a line with # and its name, a line with the words of the store at the start, and its text. Its temporaries start with a
// word that is not 0. The file `stdin` has the rules of language/specs/Rules by their names, but those that end spent, which ask for a
// small budget; samples/rules writes it.
#![tactic(auto)]

mod columns; // columns.rt: two texts beside each other
mod forms; // forms.rt: a rule's kernel form, and both runs

use self::forms::show_text;
use console::{read_full, write_all};
use std::io;
use text_lines::line::piece_end;

// A rule without both lines before its text is none.
fn print_no_rule(rt: &impl Print) -> io::Result<()> {
    write_all(rt, b"no rule\n")
}

// The rule that stands in these bytes.
fn show_rule(rt: &impl Print, rule: &[u8]) -> io::Result<()> {
    let name = piece_end(rule, 0, b'\n');
    if name >= rule.len() {
        return print_no_rule(rt);
    }
    let start = piece_end(rule, name + 1, b'\n');
    if start >= rule.len() {
        return print_no_rule(rt);
    }
    write_all(rt, &rule[..name + 1])?;
    show_text(rt, &rule[name + 1..start], &rule[start + 1..])?;
    write_all(rt, b"\n")
}

fn show_rules(rt: &impl Print, input: &[u8]) -> io::Result<()> {
    let mut at: usize = 0;
    // Kept as a while: the step is the length of what was read.
    while at < input.len() {
        let end = piece_end(input, at + 1, b'#');
        show_rule(rt, &input[at..end])?;
        at = end;
    }
    Ok(())
}

fn main(rt: HostRuntime) -> io::Result<()> {
    let mut input = [0u8; 65536];
    let n = read_full(&rt, &mut input)?;
    show_rules(&rt, &input[..n])
}
