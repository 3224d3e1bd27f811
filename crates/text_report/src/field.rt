// The fields of a line, each with the blank before it. A writer puts its bytes at the start of `text`, and answers how many they are.
ghost use Rattle.std.specs.Prelude.{◌∷◌, map, ◌*◌, ◌≤◌, length};
ghost use Rattle.words.specs.Answers.{ending_name};
ghost use Rattle.text_numbers.specs.Number.{digits, number_bytes};
ghost use Rattle.text_numbers.specs.Writer.{Put};
ghost use Rattle.text_report.specs.Lines.{blank, spaced};

use text_numbers::digits::{put_digits, put_number};
use words::Ending;
use words_endings::ending_name;

// Writes bytes as they stand.
pub fn put_bytes(bytes: &[u8], text: &mut [u8]) -> usize
    requires { length bytes.now ≤ length text.old }
    ensures { Put bytes.now text.old result text.new }
{
    for i in 0..bytes.len() {
        text[i] = bytes[i];
    }
    bytes.len()
}

// A number without a sign: at most twenty digits.
pub fn put_count(number: u64, text: &mut [u8]) -> usize
    requires { 21 ≤ length text.old }
    ensures { Put (blank ∷ digits number) text.old result text.new }
{
    text[0] = b' ';
    put_digits(number, &mut text[1..]) + 1
}

// A word: at most eleven bytes.
pub fn put_word(word: i32, text: &mut [u8]) -> usize
    requires { 12 ≤ length text.old }
    ensures { Put (blank ∷ number_bytes word) text.old result text.new }
{
    text[0] = b' ';
    put_number(word, &mut text[1..]) + 1
}

pub fn put_words(words: &[i32], text: &mut [u8]) -> usize
    requires { 12 * length words.now ≤ length text.old }
    ensures put { Put (spaced (map number_bytes words.now)) text.old result text.new }
    ensures upper_bound { result ≤ 12 * length words.now }
{
    let mut at: usize = 0;
    for &word in words {
        at += put_word(word, &mut text[at..]);
    }
    at
}

// The name of an ending, without a blank before it.
pub fn put_ending_name(ending: Ending, text: &mut [u8]) -> usize
    requires { 8 ≤ length text.old }
    ensures { Put (ending_name ending) text.old result text.new }
{
    put_bytes(ending_name(ending).as_bytes(), text)
}

pub fn put_ending(ending: Ending, text: &mut [u8]) -> usize
    requires { 9 ≤ length text.old }
    ensures { Put (blank ∷ ending_name ending) text.old result text.new }
{
    text[0] = b' ';
    put_ending_name(ending, &mut text[1..]) + 1
}
