// Bytes, blanks, numbers and names. Each function lays its bytes into `text` from `at` on, and answers the place behind them.
ghost use Rattle.std.specs.Prelude.{◌≡◌, [], ◌∷◌, ◌+◌, ◌≤◌, ◌<◌, length};
ghost use Rattle.text_numbers.specs.Number.{digits, number_bytes};
ghost use Rattle.page.specs.Page.{blanks, name, right_set};
ghost use Rattle.page_line.specs.Laid.{Laid};

use page::Sizes;
use text_numbers::digits::{put_digits, put_number};
use text_report::field::put_bytes;

pub fn lay_byte(byte: u8, at: usize, text: &mut [u8]) -> usize
    requires { at + 1 ≤ length text.old }
    ensures { Laid (byte ∷ []) text.old at result text.new }
{
    text[at] = byte;
    at + 1
}

pub fn lay_bytes(bytes: &[u8], at: usize, text: &mut [u8]) -> usize
    requires { at + length bytes.now ≤ length text.old }
    ensures { Laid bytes.now text.old at result text.new }
{
    at + put_bytes(bytes, &mut text[at..])
}

pub fn lay_blanks(count: usize, at: usize, text: &mut [u8]) -> usize
    requires { at + count ≤ length text.old }
    ensures { Laid (blanks count) text.old at result text.new }
{
    let mut i: usize = 0;
    while i < count {
        text[at + i] = b' ';
        i += 1;
    }
    at + i
}

fn lay_digits(number: usize, at: usize, text: &mut [u8]) -> usize
    requires { at + length (digits number) ≤ length text.old }
    ensures { Laid (digits number) text.old at result text.new }
{
    at + put_digits(number as u64, &mut text[at..])
}

// A constant.
pub fn lay_constant(value: i32, at: usize, text: &mut [u8]) -> usize
    requires { at + length (number_bytes value) ≤ length text.old }
    ensures { Laid (number_bytes value) text.old at result text.new }
{
    at + put_number(value, &mut text[at..])
}

// A letter with a number behind it.
pub fn lay_lettered(letter: u8, number: usize, at: usize, text: &mut [u8]) -> usize
    requires { at + length (letter ∷ digits number) ≤ length text.old }
    ensures { Laid (letter ∷ digits number) text.old at result text.new }
{
    let lettered = lay_byte(letter, at, text);
    lay_digits(number, lettered, text)
}

// The name of a variable: `v7`; from S on they are declared words, "l, from 0", and from S+D on temporaries, "t from 0".
pub fn lay_name(sizes: Sizes, number: usize, at: usize, text: &mut [u8]) -> usize
    requires { at + length (name sizes number) ≤ length text.old }
    ensures { Laid (name sizes number) text.old at result text.new }
{
    if number < sizes.store {
        return lay_lettered(b'v', number, at, text);
    }
    let behind = number - sizes.store;
    if behind < sizes.declared {
        return lay_lettered(b'l', behind, at, text);
    }
    lay_lettered(b't', behind - sizes.declared, at, text)
}

// How many digits a line's number has.
fn columns(number: usize) -> usize
    requires { number < 100000 }
    ensures { result ≡ length (digits number) }
{
    if number < 10 {
        return 1;
    }
    if number < 100 {
        return 2;
    }
    if number < 1000 {
        return 3;
    }
    if number < 10000 {
        return 4;
    }
    5
}

// "LineAt number from 1 in five columns, right-set".
pub fn lay_line_number(number: usize, at: usize, text: &mut [u8]) -> usize
    requires { (number < 100000) × (at + 5 ≤ length text.old) }
    ensures { Laid (right_set 5 (digits number)) text.old at result text.new }
{
    let count = columns(number);
    let start = lay_blanks(5 - count, at, text);
    lay_digits(number, start, text)
}
