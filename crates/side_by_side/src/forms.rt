// A rule's kernel form, and the runs of both forms from the same words.
ghost use Rattle.std.specs.Prelude.{◌≤◌, length};

use super::columns::print_columns;
use cases::lines::{print_kernel_run, print_refusal, print_source_run};
use cases::start::start_words;
use clight::runs::{kernel_run, run};
use clight::texts::{read_source, write_kernel};
use clight::translate::translate;
use std::io;
use words::table::natural;
use words_copying::put;
use write_sets_entry::count_of;

// More steps than any of the rules takes.
const BUDGET: u32 = 100000;

// How many temporaries a kernel header names: none, where they are more than the store here has room for. The run is then refused.
fn temporaries_of(header: &[i32]) -> usize
    ensures { result ≤ 128 }
{
    if header.len() < 3 {
        return 0;
    }
    let temporaries = natural(header[2]);
    if temporaries > 128 {
        return 0;
    }
    temporaries
}

// How many of the n words at the start are printed: S, those before the words that the kernel header says are declared. Where it says
// more than there are, the run is refused.
fn shown_of(header: &[i32], n: usize) -> usize
    ensures { result ≤ n }
{
    if header.len() < 3 {
        return n;
    }
    let declared = natural(header[1]);
    if declared > n {
        return n;
    }
    n - declared
}

// Runs a rule, and prints the first `shown` words.
fn show_source_run(
    rt: &impl Print,
    header: &[i32],
    rows: &[i32],
    store: &mut [i32],
    shown: usize,
) -> io::Result<()>
    requires { (shown ≤ 64) × (shown ≤ length store.old) }
{
    let verdict = run(header, rows, store, BUDGET);
    match verdict {
        Err(refusal) => print_refusal(rt, refusal),
        Ok(answer) => {
            let ending = answer.ending;
            let written = count_of(header, rows);
            print_source_run(rt, ending, answer.count, &store[..shown], written)
        }
    }
}

// Runs the kernel form, and prints the first `shown` words: declared words and temporaries are no part of the answer.
fn show_kernel_run(
    rt: &impl Print,
    header: &[i32],
    rows: &[i32],
    store: &mut [i32],
    shown: usize,
) -> io::Result<()>
    requires { (shown ≤ 64) × (shown ≤ length store.old) }
{
    let verdict = kernel_run(header, rows, store, BUDGET);
    match verdict {
        Err(refusal) => print_refusal(rt, refusal),
        Ok(answer) => {
            let ending = answer.ending;
            print_kernel_run(rt, ending, &store[..shown])
        }
    }
}

// The kernel's run: its store has the start words, those of the declarations among them, then the temporaries.
fn show_kernel(rt: &impl Print, header: &[i32], rows: &[i32], start: &[i32]) -> io::Result<()>
    requires { length start.now ≤ 64 }
{
    let mut store = [1234567891i32; 192];
    put(start, &mut store);
    let size = start.len();
    let words = size + temporaries_of(header);
    let shown = shown_of(header, size);
    show_kernel_run(rt, header, rows, &mut store[..words], shown)
}

// The source's run, then the kernel's, from the words of the line.
fn show_runs(
    rt: &impl Print,
    line: &[u8],
    header: &[i32],
    rows: &[i32],
    kernel_header: &[i32],
    kernel_rows: &[i32],
) -> io::Result<()> {
    let mut start = [0i32; 64];
    let n = start_words(line, &mut start);
    let mut store = start;
    let shown = shown_of(kernel_header, n);
    show_source_run(rt, header, rows, &mut store[..n], shown)?;
    show_kernel(rt, kernel_header, kernel_rows, &start[..n])
}

// Both tables beside each other.
fn show_tables(
    rt: &impl Print,
    text: &[u8],
    kernel_header: &[i32],
    kernel_rows: &[i32],
) -> io::Result<()> {
    let mut kernel = [0u8; 65536];
    let answer = write_kernel(kernel_header, kernel_rows, &mut kernel);
    match answer {
        Err(refusal) => print_refusal(rt, refusal),
        Ok(n) => {
            print_columns(rt, b"source", b"kernel")?;
            print_columns(rt, text, &kernel[..n])
        }
    }
}

fn show_forms(
    rt: &impl Print,
    line: &[u8],
    text: &[u8],
    header: &[i32],
    rows: &[i32],
    kernel_header: &[i32],
    kernel_rows: &[i32],
) -> io::Result<()> {
    show_tables(rt, text, kernel_header, kernel_rows)?;
    show_runs(rt, line, header, rows, kernel_header, kernel_rows)
}

// A program that was read: at most 128 rows, so that its translation has at most 20 × 128 + 20.
fn show_program(
    rt: &impl Print,
    line: &[u8],
    text: &[u8],
    header: &[i32],
    rows: &[i32],
) -> io::Result<()> {
    let mut kernel_header = [0i32; 35];
    let mut kernel_rows = [0i32; 15480];
    let answer = translate(header, rows, &mut kernel_header, &mut kernel_rows);
    match answer {
        Err(refusal) => print_refusal(rt, refusal),
        Ok((header_words, row_words)) => show_forms(
            rt,
            line,
            text,
            header,
            rows,
            &kernel_header[..header_words],
            &kernel_rows[..row_words],
        ),
    }
}

// A rule: the line of its start words, and its text.
pub fn show_text(rt: &impl Print, line: &[u8], text: &[u8]) -> io::Result<()> {
    let mut header = [0i32; 33];
    let mut rows = [0i32; 768];
    let answer = read_source(text, &mut header, &mut rows);
    match answer {
        Err(refusal) => print_refusal(rt, refusal),
        Ok((header_words, row_words)) => show_program(
            rt,
            line,
            text,
            &header[..header_words],
            &rows[..row_words],
        ),
    }
}
