// Two texts beside each other, line by line, with blanks for tabs.
ghost use Rattle.std.specs.Prelude.{◌≤◌, ◌<◌, IfOk, length};

use console::write_all;
use std::io;
use text_lines::line::piece_end;

// Where the second text's column begins.
const COLUMN: usize = 28;

fn print_byte(rt: &impl Print, byte: u8) -> io::Result<()> {
    if byte == b'\t' {
        return write_all(rt, b" ");
    }
    write_all(rt, &[byte])
}

fn print_bytes(rt: &impl Print, bytes: &[u8]) -> io::Result<()> {
    for &byte in bytes {
        print_byte(rt, byte)?;
    }
    Ok(())
}

// Blanks from column `from` up to column `to`.
fn print_gap(rt: &impl Print, from: usize, to: usize) -> io::Result<()> {
    for _ in from..to {
        write_all(rt, b" ")?;
    }
    Ok(())
}

// Prints the line from byte `at` on, with blanks up to `width`, and tells where the next line begins.
fn print_line(rt: &impl Print, text: &[u8], at: usize, width: usize) -> io::Result<usize>
    requires { at ≤ length text.now }
    ensures lower_bound { IfOk result (λ next. (at ≤ next) × (next ≤ length text.now)) }
    ensures lower_bound_2 { IfOk result (λ next. at < length text.now → at < next) }
{
    let end = piece_end(text, at, b'\n');
    print_bytes(rt, &text[at..end])?;
    print_gap(rt, end - at, width)?;
    if end < text.len() {
        return Ok(end + 1);
    }
    Ok(end)
}

// Prints both texts; where one has no line left, blanks stand in its place.
pub fn print_columns(rt: &impl Print, left: &[u8], right: &[u8]) -> io::Result<()> {
    let mut at: usize = 0;
    let mut beside: usize = 0;
    // Kept as a while: the steps are the lengths of the lines printed.
    while at < left.len() || beside < right.len() {
        at = print_line(rt, left, at, COLUMN)?;
        beside = print_line(rt, right, beside, 0)?;
        write_all(rt, b"\n")?;
    }
    Ok(())
}
