// A case's program: read, checked and run. What it gives is printed, then its translation is tried.
ghost use Rattle.std.specs.Prelude.{◌≡◌, ◌≤◌, length};
ghost use Rattle.words.specs.declared.Form.TheVariants.{Source};
ghost use Rattle.program_runs.specs.Runs.{refusal_of};

use super::kernel::answer_translation;
use cases::lines::{print_refusal, print_source_run};
use cases::start::start_words;
use clight::runs::{check, run};
use clight::texts::read_source;
use std::io;
use words::Form;
use words::layout::{store_size, store_words};
use write_sets_entry::count_of;

// Puts the start words of a case, each behind a tab, into the store, and answers how many they are; without words the store has
// `size` zeros.
fn start_size(words: &[u8], size: usize, store: &mut [i32]) -> usize
    requires { size ≤ length store.old }
    ensures { result ≤ length store.old }
{
    if words.len() == 0 {
        return size;
    }
    start_words(&words[1..], store)
}

// How many of the n words are printed: the first S. Where there are fewer, the run is refused.
fn shown_of(size: usize, n: usize) -> usize
    ensures { result ≤ n }
{
    size.min(n)
}

// Runs a program on the store, which holds the start words, and prints the first `shown` words, then runs its translation from the start
// words.
fn answer_run(
    rt: &impl Print,
    header: &[i32],
    rows: &[i32],
    budget: u32,
    start: &[i32],
    store: &mut [i32],
    shown: usize,
    kernel_rows: &mut [i32],
    text: &mut [u8],
    read_rows: &mut [i32],
) -> io::Result<()>
    requires { (shown ≤ 8256) × (shown ≤ length store.old) }
{
    let verdict = run(header, rows, store, budget);
    match verdict {
        Err(refusal) => print_refusal(rt, refusal),
        Ok(answer) => {
            let ending = answer.ending;
            let written = count_of(header, rows);
            print_source_run(rt, ending, answer.count, &store[..shown], written)?;
            answer_translation(
                rt,
                header,
                rows,
                start,
                answer,
                kernel_rows,
                text,
                read_rows,
            )
        }
    }
}

// An accepted program: its run from the start words, or from zeros.
fn answer_accepted(
    rt: &impl Print,
    header: &[i32],
    rows: &[i32],
    budget: u32,
    words: &[u8],
    kernel_rows: &mut [i32],
    text: &mut [u8],
    read_rows: &mut [i32],
) -> io::Result<()>
    requires { refusal_of Source header.now rows.now ≡ (Ok tt) }
{
    let mut start = [0i32; 8256];
    let n = start_size(words, store_words(Form::Source, header, rows), &mut start);
    let mut store = start;
    let shown = shown_of(store_size(Form::Source, header), n);
    answer_run(
        rt,
        header,
        rows,
        budget,
        &start[..n],
        &mut store[..n],
        shown,
        kernel_rows,
        text,
        read_rows,
    )
}

fn answer_program(
    rt: &impl Print,
    header: &[i32],
    rows: &[i32],
    budget: u32,
    words: &[u8],
    kernel_rows: &mut [i32],
    text: &mut [u8],
    read_rows: &mut [i32],
) -> io::Result<()> {
    let verdict = check(header, rows);
    match verdict {
        Err(refusal) => print_refusal(rt, refusal),
        Ok(()) => answer_accepted(
            rt,
            header,
            rows,
            budget,
            words,
            kernel_rows,
            text,
            read_rows,
        ),
    }
}

// Answers a case, given its budget, its start words and its program's text. The tables and the buffer lent are room for the kernel
// rows, their text, and the rows read back from it.
pub fn answer_text(
    rt: &impl Print,
    budget: u32,
    words: &[u8],
    source: &[u8],
    kernel_rows: &mut [i32],
    text: &mut [u8],
    read_rows: &mut [i32],
) -> io::Result<()> {
    let mut header = [0i32; 33];
    let mut rows = [0i32; 12288];
    let answer = read_source(source, &mut header, &mut rows);
    match answer {
        Err(refusal) => print_refusal(rt, refusal),
        Ok((header_words, row_words)) => answer_program(
            rt,
            &header[..header_words],
            &rows[..row_words],
            budget,
            words,
            kernel_rows,
            text,
            read_rows,
        ),
    }
}
