// The lines that a preview prints. A writer puts its bytes at the start of `text`, and answers how many they are.
#![tactic(auto)]

ghost use Rattle.std.specs.Prelude.{◌≤◌, ◌*◌, length};
ghost use Rattle.text_numbers.specs.Writer.{Put};
ghost use Rattle.command_preview_lines.specs.Changes.{told_line, change_line, change_at, change_lines, preview_lines, Showable};

use program_previews::PreviewAnswer;
use text_numbers::digits::put_digits;
use text_report::field::{put_count, put_ending_name, put_word};
use text_report::line::refused_line;
use words::{Ending, Refusal};

// The first line.
fn told_line(ending: Ending, count: u32, differing: usize, text: &mut [u8]) -> usize
    requires { 41 ≤ length text.old }
    ensures put { Put (told_line ending count differing) text.old result text.new }
    ensures upper_bound { result ≤ 41 }
{
    let named = put_ending_name(ending, text);
    let counted = named + put_count(count as u64, &mut text[named..]);
    let end = counted + put_count(differing as u64, &mut text[counted..]);
    text[end] = b'\n';
    end + 1
}

// The line of a word that would differ.
fn change_line(place: usize, before: i32, after: i32, text: &mut [u8]) -> usize
    requires { 46 ≤ length text.old }
    ensures put { Put (change_line place before after) text.old result text.new }
    ensures upper_bound { result ≤ 46 }
{
    let placed = put_digits(place as u64, text);
    text[placed] = b':';
    let first = placed + 1;
    let second = first + put_word(before, &mut text[first..]);
    let end = second + put_word(after, &mut text[second..]);
    text[end] = b'\n';
    end + 1
}

// The line of a place, where its words differ.
fn change_at(place: usize, before: i32, after: i32, text: &mut [u8]) -> usize
    requires { 46 ≤ length text.old }
    ensures put { Put (change_at place before after) text.old result text.new }
    ensures upper_bound { result ≤ 46 }
{
    if before == after {
        return 0;
    }
    change_line(place, before, after, text)
}

// The lines of the first places, lowest first.
fn change_lines(size: usize, store: &[i32], left: &[i32], text: &mut [u8]) -> usize
    requires size_in_bounds { (size ≤ length store.now) × (size ≤ length left.now) }
    requires size_in_bounds_2 { 46 * size ≤ length text.old }
    ensures put { Put (change_lines size store.now left.now) text.old result text.new }
    ensures upper_bound { result ≤ 46 * size }
{
    let mut at: usize = 0;
    for i in 0..size {
        at += change_at(i, store[i], left[i], &mut text[at..]);
    }
    at
}

fn told_lines(
    preview: PreviewAnswer,
    size: usize,
    store: &[i32],
    left: &[i32],
    text: &mut [u8],
) -> usize
    requires { Showable (Ok preview) size store.now left.now (length text.old) }
    ensures { Put (preview_lines (Ok preview) size store.now left.now) text.old result text.new }
{
    let told = told_line(preview.ending, preview.count, preview.differing, text);
    told + change_lines(size, store, left, &mut text[told..])
}

// The lines of a preview, of which this store would become the words at the start of `left`; the first `size` words are compared.
pub fn preview_lines(
    verdict: Result<PreviewAnswer, Refusal>,
    size: usize,
    store: &[i32],
    left: &[i32],
    text: &mut [u8],
) -> usize
    requires { Showable verdict size store.now left.now (length text.old) }
    ensures { Put (preview_lines verdict size store.now left.now) text.old result text.new }
{
    match verdict {
        Ok(preview) => told_lines(preview, size, store, left, text),
        Err(refusal) => refused_line(refusal, text),
    }
}
