// Lines of numbers written: how many bytes words take, and the bytes of a line.
ghost use Rattle.std.specs.Prelude.{◌<◌, ◌≤◌, length};
ghost use Rattle.text_lines.specs.Line.{line_bytes};
ghost use Rattle.text_numbers.specs.Writer.{Put};
ghost use Rattle.text_lines.specs.Writer.{Measured};

use text_numbers::digits::{number_size, put_number};

// How many bytes words take, each with the tab or newline behind it.
pub fn size_of(words: &[i32]) -> usize
    requires { length words.now ≤ 245880 }
    ensures { Measured words.now result }
{
    let mut size: usize = 0;
    for &word in words {
        size += number_size(word) + 1;
    }
    size
}

// Writes a line at the start of `text`, and answers how many bytes it has.
pub fn put_line(words: &[i32], text: &mut [u8]) -> usize
    requires words_nonzero { 0 < length words.now }
    requires words_in_bounds { length (line_bytes words.now) ≤ length text.old }
    ensures { Put (line_bytes words.now) text.old result text.new }
{
    let end = put_number(words[0], text);
    let next = end + 1;
    if words.len() == 1 {
        text[end] = b'\n';
        return next;
    }
    text[end] = b'\t';
    next + put_line(&words[1..], &mut text[next..])
}
