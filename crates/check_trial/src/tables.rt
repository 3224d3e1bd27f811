// The tables of a text: a line with a title, whose first byte is the form, s or k; a line with the header; a line for each row.
ghost use Rattle.std.specs.Prelude.{◌<◌, ◌≤◌, IfOk, length};

use super::number::numbers;
use super::verdict;
use console::write_all;
use std::io;
use words::Form;

// The position behind the first such byte from `start` on, or the end.
fn behind(text: &[u8], start: usize, byte: u8) -> usize
    requires { start ≤ length text.now }
    ensures { (start ≤ result) × (result ≤ length text.now) × (start < length text.now → start < result) }
{
    for at in start..text.len() {
        if text[at] == byte {
            return at + 1;
        }
    }
    text.len()
}

fn form_of(letter: u8) -> Form {
    if letter == b'k' {
        return Form::Kernel;
    }
    Form::Source
}

// Checks the table with this header and these rows; the slices lend room for the words.
fn check_words(
    rt: &impl Print,
    form: Form,
    heading: &[u8],
    body: &[u8],
    header: &mut [i32],
    rows: &mut [i32],
) -> io::Result<()> {
    let h = numbers(heading, header);
    let r = numbers(body, rows);
    verdict::check_table(rt, form, &header[..h], &rows[..r])
}

// Checks the table of at most 200 rows whose title begins at `start`, and answers where the next title begins. Titles end in a newline, tables in a #.
fn check_table(rt: &impl Print, text: &[u8], start: usize) -> io::Result<usize>
    requires { start < length text.now }
    ensures { IfOk result (λ end. (start < end) × (end ≤ length text.now)) }
{
    let title = behind(text, start, b'\n');
    let line = behind(text, title, b'\n');
    let end = behind(text, line, b'#');
    write_all(rt, &text[start..title])?;
    let mut header = [0i32; 64];
    let mut rows = [0i32; 1200];
    check_words(
        rt,
        form_of(text[start]),
        &text[title..line],
        &text[line..end],
        &mut header,
        &mut rows,
    )?;
    Ok(end)
}

pub fn check_all(rt: &impl Print, text: &[u8]) -> io::Result<()> {
    let mut at = 0;
    // Kept as a while: the step is the length of what was read.
    while at < text.len() {
        at = check_table(rt, text, at)?;
    }
    Ok(())
}
