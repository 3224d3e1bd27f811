// The run that a dispatcher sees: the ending and the first S words. The declared words and the temporaries are kept here.
#![tactic(auto)]

ghost use Rattle.std.specs.Prelude.{◌≡◌, length};
ghost use Rattle.words.specs.Layout.{layout_of, store_size, header_store, zeros};
ghost use Rattle.words.specs.declared.Form.TheVariants.{Kernel};
ghost use Rattle.translation_fate.specs.Views.{DispatcherView};
ghost use Rattle.program_runs.specs.Runs.{refusal_of};
ghost use Rattle.program_dispatcher.specs.DispatcherRuns.{answer_and_words, view_of_run, dispatcher_after, dispatcher_result};

use program_runs::{kernel_check, run_kernel};
use words::layout::{header_store, store_size};
use words::{Cause, Ending, Form, Refusal};
use words_copying::put;

// Runs an accepted program on its words in a store of zeros, and takes the words back.
fn run_in_store(
    header: &[i32],
    rows: &[i32],
    words: &mut [i32],
    budget: u32,
    store: &mut [i32],
) -> Ending
    requires rows_value { refusal_of Kernel header.now rows.now ≡ (Ok tt) }
    requires words_len { length words.old ≡ store_size (layout_of Kernel header.now) }
    requires store_value { store.old ≡ zeros (header_store Kernel header.now) }
    ensures { ◌≡◌ {A = DispatcherView} (record { ending = result; words = words.new }) (view_of_run header.now rows.now budget words.old) }
{
    put(words, store);
    let run = run_kernel(header, rows, store, budget);
    let size = words.len();
    put(&store[0..size], words);
    run.ending
}

// Keeps the store. It stands apart from the check, so that their memory is not needed at the same time.
fn run_on_words(header: &[i32], rows: &[i32], words: &mut [i32], budget: u32) -> Ending
    requires rows_value { refusal_of Kernel header.now rows.now ≡ (Ok tt) }
    requires words_len { length words.old ≡ store_size (layout_of Kernel header.now) }
    ensures { ◌≡◌ {A = DispatcherView} (record { ending = result; words = words.new }) (view_of_run header.now rows.now budget words.old) }
{
    let size = header_store(Form::Kernel, header);
    let mut store = [0i32; 16448];
    run_in_store(header, rows, words, budget, &mut store[0..size])
}

// An accepted program on any number of words: cause 11, then the run.
fn run_shown(
    header: &[i32],
    rows: &[i32],
    words: &mut [i32],
    budget: u32,
) -> Result<Ending, Refusal>
    requires { refusal_of Kernel header.now rows.now ≡ (Ok tt) }
    ensures { answer_and_words result words.new ≡ dispatcher_after (Ok tt) header.now rows.now budget words.old }
{
    if words.len() != store_size(Form::Kernel, header) {
        return Err(Refusal {
            cause: Cause::StoreSize,
            place: 0,
        });
    }
    Ok(run_on_words(header, rows, words, budget))
}

// Runs a kernel program on the S words that a dispatcher sees: "The dispatcher gets the ending and the first S words".
pub fn dispatcher_run(
    header: &[i32],
    rows: &[i32],
    words: &mut [i32],
    budget: u32,
) -> Result<Ending, Refusal>
    ensures { answer_and_words result words.new ≡ dispatcher_result header.now rows.now budget words.old }
{
    kernel_check(header, rows)?;
    run_shown(header, rows, words, budget)
}
