// The translation of a case's program: its legality, its text, and its run.
ghost use Rattle.std.specs.Prelude.{◌≡◌, ◌≤◌, length};
ghost use Rattle.words.specs.declared.Form.TheVariants.{Kernel};
ghost use Rattle.program_runs.specs.Runs.{refusal_of};

use cases::lines::print_kernel_run;
use clight::runs::{kernel_check, kernel_run};
use clight::texts::{read_kernel, write_kernel};
use clight::translate::translate;
use console::write_all;
use std::io;
use words::layout::{header_store, store_size};
use words::{Ending, Form, RunAnswer};
use words_copying::put;

// Reads the text back, and says so where it gives other words.
fn compare_text(
    rt: &impl Print,
    header: &[i32],
    rows: &[i32],
    text: &[u8],
    read_rows: &mut [i32],
) -> io::Result<()> {
    let mut read_header = [0i32; 35];
    let answer = read_kernel(text, &mut read_header, read_rows);
    let Ok((header_words, row_words)) = answer else {
        return write_all(rt, b"unequal\n");
    };
    if header != &read_header[..header_words] || rows != &read_rows[..row_words] {
        return write_all(rt, b"unequal\n");
    }
    Ok(())
}

// "Rows written and read give the same rows": prints nothing where that holds.
fn try_text(
    rt: &impl Print,
    header: &[i32],
    rows: &[i32],
    text: &mut [u8],
    read_rows: &mut [i32],
) -> io::Result<()> {
    let answer = write_kernel(header, rows, text);
    match answer {
        Err(_) => write_all(rt, b"unwritten\n"),
        Ok(n) => compare_text(rt, header, rows, &text[..n], read_rows),
    }
}

// "The kernel's count is at most the translation's rows × the source's count": that number, cut at the largest budget.
fn enough(rows: usize, count: u32) -> u32
    requires { rows ≤ 40980 }
{
    let steps = rows as u64 * count as u64;
    u32::try_from(steps).unwrap_or(u32::MAX)
}

// Runs a kernel program on the store, of S+D+T words, whose first S+D are the source's start words, and prints the first `shown` words: S.
fn run_from(
    rt: &impl Print,
    header: &[i32],
    rows: &[i32],
    start: &[i32],
    store: &mut [i32],
    shown: usize,
    budget: u32,
) -> io::Result<()>
    requires { (shown ≤ 8256) × (shown ≤ length store.old) }
{
    if store.len() < start.len() {
        return write_all(rt, b"kernel-refused\n");
    }
    put(start, store);
    let verdict = kernel_run(header, rows, store, budget);
    match verdict {
        Err(_) => write_all(rt, b"kernel-refused\n"),
        Ok(answer) => { print_kernel_run(rt, answer.ending, &store[..shown]) }
    }
}

// Runs a legal kernel program from the source's start words, with a budget that is enough. The temporaries begin with a word that is
// not 0.
fn run_translation(
    rt: &impl Print,
    header: &[i32],
    rows: &[i32],
    start: &[i32],
    count: u32,
) -> io::Result<()>
    requires { refusal_of Kernel header.now rows.now ≡ (Ok tt) }
{
    let mut store = [1234567891i32; 16448];
    let words = header_store(Form::Kernel, header);
    let shown = store_size(Form::Kernel, header);
    run_from(
        rt,
        header,
        rows,
        start,
        &mut store[..words],
        shown,
        enough(rows.len() / 6, count),
    )
}

// A legal kernel program: its text, and its run where the source's ended.
fn answer_legal(
    rt: &impl Print,
    header: &[i32],
    rows: &[i32],
    start: &[i32],
    source: RunAnswer,
    text: &mut [u8],
    read_rows: &mut [i32],
) -> io::Result<()>
    requires { refusal_of Kernel header.now rows.now ≡ (Ok tt) }
{
    try_text(rt, header, rows, text, read_rows)?;
    match source.ending {
        Ending::Spent => Ok(()),
        Ending::Plain | Ending::Fault(_) => {
            run_translation(rt, header, rows, start, source.count)
        }
    }
}

fn answer_kernel(
    rt: &impl Print,
    header: &[i32],
    rows: &[i32],
    start: &[i32],
    source: RunAnswer,
    text: &mut [u8],
    read_rows: &mut [i32],
) -> io::Result<()> {
    let verdict = kernel_check(header, rows);
    match verdict {
        Err(_) => write_all(rt, b"illegal\n"),
        Ok(()) => answer_legal(rt, header, rows, start, source, text, read_rows),
    }
}

// Translates a program that ran from these start words with this answer, and tries its kernel form.
pub fn answer_translation(
    rt: &impl Print,
    header: &[i32],
    rows: &[i32],
    start: &[i32],
    source: RunAnswer,
    kernel_rows: &mut [i32],
    text: &mut [u8],
    read_rows: &mut [i32],
) -> io::Result<()> {
    let mut kernel_header = [0i32; 35];
    let answer = translate(header, rows, &mut kernel_header, kernel_rows);
    match answer {
        Err(_) => write_all(rt, b"untranslated\n"),
        Ok((header_words, row_words)) => answer_kernel(
            rt,
            &kernel_header[..header_words],
            &kernel_rows[..row_words],
            start,
            source,
            text,
            read_rows,
        ),
    }
}
