// Reads the texts of standard input, writes each again, and prints what reader and writer answered.
//
// Each line of the input is one text. Its first byte is the form, s or k; in the others | stands for a tab, / for a newline, r for a
// carriage return, z for a zero byte, A for a row's line and C for 2,048 of them, and every other byte for itself.
//
// For a text that is refused it prints the number and the place. For one that is read: how many header words and row words it has,
// whether writing them gave the same bytes, and the numbers that a text buffer, a header table and a row table too short by one give.
#![tactic(auto)]

mod source; // source.rt: the input's lines, and the texts that they stand for

ghost use Rattle.std.specs.Prelude.{◌≡◌, ◌≤◌, length};

use self::source::expanded;
use console::read_full;
use std::io;
use words::{Form, Refusal};

// The number of the cause; 0 where there is none.
fn number_of(refusal: Option<Refusal>) -> u32 {
    match refusal {
        Some(refusal) => refusal.cause.number(),
        None => 0,
    }
}

// One less than `n`, within `most`.
fn less_one(n: usize, most: usize) -> usize
    ensures { result ≤ most }
{
    n.saturating_sub(1).min(most)
}

// Prints what a text buffer too short by one gives.
fn write_short(
    rt: &impl Print,
    form: Form,
    header: &[i32],
    rows: &[i32],
    n: usize,
    buffer: &mut [u8],
) -> io::Result<()> {
    let short = less_one(n, buffer.len());
    let answer = text_form::write(form, header, rows, &mut buffer[0..short]);
    print!(rt; " {}", number_of(answer.err()))
}

// Writes a header and rows, and prints whether that gave the text.
fn write_again(
    rt: &impl Print,
    form: Form,
    text: &[u8],
    header: &[i32],
    rows: &[i32],
    buffer: &mut [u8],
) -> io::Result<()> {
    let Ok(n) = text_form::write(form, header, rows, buffer) else {
        return Ok(());
    };
    if n <= buffer.len() && &buffer[..n] == text {
        print!(rt; " same")?;
    }
    write_short(rt, form, header, rows, n, buffer)
}

// Prints what a header table too short by one gives.
fn read_short_header(
    rt: &impl Print,
    form: Form,
    text: &[u8],
    words: usize,
    header: &mut [i32],
    rows: &mut [i32],
) -> io::Result<()> {
    let short = less_one(words, header.len());
    let answer = text_form::read(form, text, &mut header[0..short], rows);
    print!(rt; " {}", number_of(answer.err()))
}

// Prints what a row table too short by one gives.
fn read_short_rows(
    rt: &impl Print,
    form: Form,
    text: &[u8],
    words: usize,
    header: &mut [i32],
    rows: &mut [i32],
) -> io::Result<()> {
    let short = less_one(words, rows.len());
    let answer = text_form::read(form, text, header, &mut rows[0..short]);
    print!(rt; " {}", number_of(answer.err()))
}

// Reads a text, and prints the answer.
fn read_text(
    rt: &impl Print,
    form: Form,
    text: &[u8],
    buffer: &mut [u8],
    header: &mut [i32],
    rows: &mut [i32],
) -> io::Result<()> {
    match text_form::read(form, text, header, rows) {
        Err(refusal) => print!(rt; "refused {} {}", refusal.cause.number(), refusal.place),
        Ok((header_words, row_words)) => {
            print!(rt; "read {header_words} {row_words}")?;
            let numbers = header_words.min(header.len());
            let words = row_words.min(rows.len());
            write_again(rt, form, text, &header[0..numbers], &rows[0..words], buffer)?;
            read_short_header(rt, form, text, header_words, header, rows)?;
            read_short_rows(rt, form, text, row_words, header, rows)
        }
    }
}

fn form_of(letter: u8) -> Form {
    if letter == b'k' {
        return Form::Kernel;
    }
    Form::Source
}

// Reads the text that a line of the input stands for.
fn read_line(
    rt: &impl Print,
    line: &[u8],
    text: &mut [u8],
    buffer: &mut [u8],
    header: &mut [i32],
    rows: &mut [i32],
) -> io::Result<()> {
    if line.len() == 0 {
        return Ok(());
    }
    let form = form_of(line[0]);
    let n = expanded(line, text);
    read_text(rt, form, &text[0..n], buffer, header, rows)?;
    println!(rt)
}

fn read_lines(
    rt: &impl Print,
    input: &[u8],
    text: &mut [u8],
    buffer: &mut [u8],
    header: &mut [i32],
    rows: &mut [i32],
) -> io::Result<()> {
    for line in input.split(|byte| *byte == b'\n') {
        read_line(rt, line, text, buffer, header, rows)?;
    }
    Ok(())
}

// Room for a text.
fn text_buffer() -> [u8; 524288]
    ensures { 524288 ≡ length result }
{
    [0; 524288]
}

fn main(rt: HostRuntime) -> io::Result<()> {
    let mut input = [0u8; 16384];
    let n = read_full(&rt, &mut input)?;
    let mut text = text_buffer();
    let mut buffer = text_buffer();
    let mut header = [0i32; 40];
    let mut rows = [0i32; 245900];
    read_lines(
        &rt,
        &input[..n],
        &mut text,
        &mut buffer,
        &mut header,
        &mut rows,
    )
}
