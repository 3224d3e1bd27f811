// What a rule would do to a store, told beforehand.
#![tactic(auto)]

ghost use Rattle.std.specs.Prelude.{◌≡◌, ◌≤◌, length};
ghost use Rattle.words.specs.Layout.{store_words};
ghost use Rattle.words.specs.declared.Form.TheVariants.{Source};
ghost use Rattle.language_programs.specs.Program.{source_size, run_program};
ghost use Rattle.program_runs.specs.Runs.{refusal_of};
ghost use Rattle.program_previews.specs.Previews.{difference, differences, answer_and_words, preview_result, accepted_preview, Foretells};

use program_runs::{check, run_accepted};
use words::layout::{store_size, store_words};
use words::{Cause, Ending, Form, Refusal};
use words_copying::put;

// "The ending, the count and how many store words would differ".
#[derive(Clone, Copy)]
pub struct PreviewAnswer {
    pub ending: Ending,
    pub count: u32,
    pub differing: usize,
}

// 1 for two words that differ, 0 for equal ones.
fn differs(word: i32, other: i32) -> usize
    ensures { result ≡ difference word other }
{
    if word == other {
        return 0;
    }
    1
}

// How many of the first words of two stores differ.
fn count_differences(size: usize, store: &[i32], copy: &[i32]) -> usize
    requires { (size ≤ length store.now) × (size ≤ length copy.now) }
    ensures { result ≡ differences size store.now copy.now }
{
    let mut tally: usize = 0;
    for i in 0..size {
        tally += differs(store[i], copy[i]);
    }
    tally
}

// Runs an accepted program on a copy of a store of its size, and compares the first S words of the two.
fn preview_on_copy(
    header: &[i32],
    rows: &[i32],
    store: &[i32],
    budget: u32,
    copy: &mut [i32],
) -> PreviewAnswer
    requires rows_value { refusal_of Source header.now rows.now ≡ (Ok tt) }
    requires store_len { length store.now ≡ store_words Source header.now rows.now }
    requires copy_len { length copy.old ≡ store_words Source header.now rows.now }
    ensures { Foretells (source_size header.now) (run_program Source header.now rows.now budget store.now) store.now result copy.new }
{
    put(store, copy);
    let run = run_accepted(Form::Source, header, rows, copy, budget);
    let size = store_size(Form::Source, header);
    PreviewAnswer {
        ending: run.ending,
        count: run.count,
        differing: count_differences(size, store, copy),
    }
}

// The preview of an accepted program: cause 11, cause 15, then the run on a copy.
fn preview_accepted(
    header: &[i32],
    rows: &[i32],
    store: &[i32],
    budget: u32,
    scratch: &mut [i32],
) -> Result<PreviewAnswer, Refusal>
    requires { refusal_of Source header.now rows.now ≡ (Ok tt) }
    ensures { answer_and_words result store.now scratch.new ≡ accepted_preview header.now rows.now budget store.now scratch.old }
{
    let words = store_words(Form::Source, header, rows);
    if store.len() != words {
        return Err(Refusal {
            cause: Cause::StoreSize,
            place: 0,
        });
    }
    if scratch.len() < words {
        return Err(Refusal {
            cause: Cause::ScratchSize,
            place: 0,
        });
    }
    Ok(preview_on_copy(header, rows, store, budget, &mut scratch[..words]))
}

// Tells what a run of a source program on the store would do: the answer of that run, how many of the first S words would differ, and in the
// first S+D words of the scratch the store that it would leave.
pub fn preview(
    header: &[i32],
    rows: &[i32],
    store: &[i32],
    budget: u32,
    scratch: &mut [i32],
) -> Result<PreviewAnswer, Refusal>
    ensures { answer_and_words result store.now scratch.new ≡ preview_result header.now rows.now budget store.now scratch.old }
{
    check(header, rows)?;
    preview_accepted(header, rows, store, budget, scratch)
}
