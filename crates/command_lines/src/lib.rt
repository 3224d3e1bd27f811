// Whole lines. A writer puts its line at the start of `text`, and answers how many bytes it has.
#![tactic(auto)]

ghost use Rattle.std.specs.Prelude.{[], ◌∷◌, ◌++◌, map, ◌+◌, ◌*◌, ◌≤◌, length};
ghost use Rattle.text_numbers.specs.Number.{digits, number_bytes};
ghost use Rattle.text_lines.specs.Line.{newline};
ghost use Rattle.text_numbers.specs.Writer.{Put};
ghost use Rattle.text_report.specs.Lines.{spaced, line_room};
ghost use Rattle.command_lines.specs.Lines.{verdict_line, ended_line, run_line, dispatcher_line, usage_line, wrong_budget_line, long_text_line, long_store_line, unreadable_text_line, unreadable_store_line, malformed_line};

use text_report::field::{put_bytes, put_count, put_ending_name, put_words};
use text_report::line::{kernel_line, refused_line};
use words::{Ending, Refusal, RunAnswer};

// The count, the words and the newline at the end of a line.
fn put_counted(count: u32, words: &[i32], text: &mut [u8]) -> usize
    requires { 12 * length words.now + 22 ≤ length text.old }
    ensures { Put (spaced (digits count ∷ map number_bytes words.now) ++ (newline ∷ [])) text.old result text.new }
{
    let counted = put_count(count as u64, text);
    let end = counted + put_words(words, &mut text[counted..]);
    text[end] = b'\n';
    end + 1
}

fn ended_line(ending: Ending, count: u32, words: &[i32], text: &mut [u8]) -> usize
    requires { line_room (length words.now) ≤ length text.old }
    ensures { Put (ended_line ending count words.now) text.old result text.new }
{
    let named = put_ending_name(ending, text);
    named + put_counted(count, words, &mut text[named..])
}

// The line of a check.
pub fn verdict_line(verdict: Result<(), Refusal>, text: &mut [u8]) -> usize
    requires { line_room 0 ≤ length text.old }
    ensures { Put (verdict_line verdict) text.old result text.new }
{
    match verdict {
        Ok(()) => put_bytes(b"ok\n", text),
        Err(refusal) => refused_line(refusal, text),
    }
}

// The line of a run, which left this store.
pub fn run_line(verdict: Result<RunAnswer, Refusal>, store: &[i32], text: &mut [u8]) -> usize
    requires { line_room (length store.now) ≤ length text.old }
    ensures { Put (run_line verdict store.now) text.old result text.new }
{
    match verdict {
        Ok(answer) => ended_line(answer.ending, answer.count, store, text),
        Err(refusal) => refused_line(refusal, text),
    }
}

// The line of a dispatcher's run, which left these words.
pub fn dispatcher_line(verdict: Result<Ending, Refusal>, words: &[i32], text: &mut [u8]) -> usize
    requires { line_room (length words.now) ≤ length text.old }
    ensures { Put (dispatcher_line verdict words.now) text.old result text.new }
{
    match verdict {
        Ok(ending) => kernel_line(ending, words, text),
        Err(refusal) => refused_line(refusal, text),
    }
}

// Wrong arguments.
pub fn usage_line(text: &mut [u8]) -> usize
    requires { line_room 20 ≤ length text.old }
    ensures { Put usage_line text.old result text.new }
{
    put_bytes(
        b"misuse: command check | run BUDGET [STORE] | preview BUDGET [STORE] | translate | kernel-check | kernel-run BUDGET [STORE] | dispatcher-run BUDGET [STORE] | writes | join SECOND | page | translate-page | flatten | flat-check | flat-run BUDGET [STORE]\n",
        text,
    )
}

// A wrong budget.
pub fn wrong_budget_line(text: &mut [u8]) -> usize
    requires { line_room 5 ≤ length text.old }
    ensures { Put wrong_budget_line text.old result text.new }
{
    put_bytes(
        b"misuse: the budget is no number from 0 to 4294967295\n",
        text,
    )
}

// A text over the limit.
pub fn long_text_line(text: &mut [u8]) -> usize
    requires { line_room 5 ≤ length text.old }
    ensures { Put long_text_line text.old result text.new }
{
    put_bytes(b"misuse: the input is over 2097152 bytes\n", text)
}

// A store file, or a second text, over the limit.
pub fn long_store_line(text: &mut [u8]) -> usize
    requires { line_room 5 ≤ length text.old }
    ensures { Put long_store_line text.old result text.new }
{
    put_bytes(b"misuse: the file is over 197376 bytes\n", text)
}

// Standard input that cannot be read.
pub fn unreadable_text_line(text: &mut [u8]) -> usize
    requires { line_room 5 ≤ length text.old }
    ensures { Put unreadable_text_line text.old result text.new }
{
    put_bytes(b"misuse: the input is unreadable\n", text)
}

// A store file, or a second text, that cannot be read.
pub fn unreadable_store_line(text: &mut [u8]) -> usize
    requires { line_room 5 ≤ length text.old }
    ensures { Put unreadable_store_line text.old result text.new }
{
    put_bytes(b"misuse: the file is unreadable\n", text)
}

// The line of a store file's first malformed word.
pub fn malformed_line(number: usize, text: &mut [u8]) -> usize
    requires { line_room 5 ≤ length text.old }
    ensures { Put (malformed_line number) text.old result text.new }
{
    let named = put_bytes(b"misuse: malformed word in the store file, number", text);
    let end = named + put_count(number as u64, &mut text[named..]);
    text[end] = b'\n';
    end + 1
}
