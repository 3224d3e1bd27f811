// Whole lines. A writer puts its line at the start of `text`, and answers how many bytes it has.
ghost use Rattle.std.specs.Prelude.{[], ◌∷◌, ◌++◌, map, ◌+◌, ◌*◌, ◌≤◌, length};
ghost use Rattle.text_numbers.specs.Number.{digits, number_bytes};
ghost use Rattle.text_lines.specs.Line.{newline};
ghost use Rattle.text_numbers.specs.Writer.{Put};
ghost use Rattle.text_report.specs.Lines.{blank, spaced, line_room, refused_line, source_line, kernel_line};

use super::field::{put_bytes, put_count, put_ending, put_words};
use words::{Ending, Refusal};

// The place of a refusal.
fn put_place(place: usize, text: &mut [u8]) -> usize
    requires { 21 ≤ length text.old }
    ensures put { Put (blank ∷ digits place) text.old result text.new }
    ensures upper_bound { result ≤ 21 }
{
    put_count(place as u64, text)
}

// "refused, number, place".
pub fn refused_line(refusal: Refusal, text: &mut [u8]) -> usize
    requires { line_room 0 ≤ length text.old }
    ensures { Put (refused_line refusal.number refusal.place) text.old result text.new }
{
    let named = put_bytes(b"refused", text);
    let numbered = named + put_count(refusal.cause.number() as u64, &mut text[named..]);
    let end = numbered + put_place(refusal.place, &mut text[numbered..]);
    text[end] = b'\n';
    end + 1
}

// The words at the end of a line, and the newline.
fn put_rest(words: &[i32], text: &mut [u8]) -> usize
    requires { 12 * length words.now + 1 ≤ length text.old }
    ensures put { Put (spaced (map number_bytes words.now) ++ (newline ∷ [])) text.old result text.new }
    ensures upper_bound { result ≤ 12 * length words.now + 1 }
{
    let end = put_words(words, text);
    text[end] = b'\n';
    end + 1
}

// The words, the number behind them, and the newline.
fn put_written(words: &[i32], written: u32, text: &mut [u8]) -> usize
    requires { 12 * length words.now + 22 ≤ length text.old }
    ensures put { Put ((spaced (map number_bytes words.now) ++ (blank ∷ digits written)) ++ (newline ∷ [])) text.old result text.new }
    ensures upper_bound { result ≤ 12 * length words.now + 12 }
{
    let worded = put_words(words, text);
    let end = worded + put_count(written as u64, &mut text[worded..]);
    text[end] = b'\n';
    end + 1
}

// The line of a source run, with the number of variables that the program can write; how long it is at most tells how much room is left behind it.
pub fn source_line(
    ending: Ending,
    count: u32,
    words: &[i32],
    written: u32,
    text: &mut [u8],
) -> usize
    requires { line_room (length words.now) ≤ length text.old }
    ensures put { Put (source_line ending count words.now written) text.old result text.new }
    ensures upper_bound { result ≤ line_room (length words.now) }
{
    let named = put_bytes(b"source", text);
    let ended = named + put_ending(ending, &mut text[named..]);
    let counted = ended + put_count(count as u64, &mut text[ended..]);
    counted + put_written(words, written, &mut text[counted..])
}

// The line of a kernel run.
pub fn kernel_line(ending: Ending, words: &[i32], text: &mut [u8]) -> usize
    requires { line_room (length words.now) ≤ length text.old }
    ensures { Put (kernel_line ending words.now) text.old result text.new }
{
    let named = put_bytes(b"kernel", text);
    let ended = named + put_ending(ending, &mut text[named..]);
    ended + put_rest(words, &mut text[ended..])
}
