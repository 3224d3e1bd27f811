// The numbers of a line, and the first line that a test turns away.
ghost use Rattle.std.specs.Prelude.{◌≡◌, ◌+◌, ◌<◌, ◌≤◌, length};
ghost use Rattle.text_lines.specs.Line.{ended, lines_of};
ghost use Rattle.day_form.specs.Lines.{most_numbers, are_pairs, all_named, turns_away, first_line, WordsRead, NextRead};

use text_lines::line::{count_numbers, piece_end, store_numbers};
use words::table::natural;

// What a line is tested for: that it has pairs and its number is not past the last that a day line may have; or that its variable
// numbers are below V.
#[derive(Clone, Copy)]
pub enum LineTest {
    Pairs(usize),
    Names(usize),
}

// Where the line behind begins, and how many numbers a line has.
#[derive(Clone, Copy)]
pub struct NextLine {
    pub at: usize,
    pub count: usize,
}

// Writes the numbers of a line at the start of the table, where they are at most 32.
fn read_numbers(line: &[u8], table: &mut [i32]) -> usize
    requires { most_numbers ≤ length table.old }
    ensures { WordsRead (ended line.now) result table.old table.new }
{
    let Some(count) = count_numbers(line) else {
        return 0;
    };
    if count > 32 {
        return 0;
    }
    store_numbers(line, table);
    count
}

// The line from `at` on: its numbers at the start of the table, how many they are, and where the next line begins.
pub fn next_line(text: &[u8], at: usize, table: &mut [i32]) -> NextLine
    requires at_in_bounds { at < length text.now }
    requires most_numbers_in_bounds { most_numbers ≤ length table.old }
    ensures { NextRead text.now at result table.old table.new }
{
    let end = piece_end(text, at, b'\n');
    if end == text.len() {
        return NextLine { at: end, count: 0 };
    }
    let count = read_numbers(&text[at..end], table);
    NextLine { at: end + 1, count }
}

// Whether the variable numbers of pairs are below V.
fn all_named(variables: usize, numbers: &[i32]) -> bool
    ensures { result ≡ all_named variables numbers.now }
{
    for i in 0..numbers.len() / 2 {
        if natural(numbers[2 * i]) >= variables {
            return false;
        }
    }
    true
}

// At least one pair, and no number alone.
fn are_pairs(numbers: &[i32]) -> bool
    ensures { result ≡ are_pairs numbers.now }
{
    numbers.len() > 0 && numbers.len() % 2 == 0
}

fn turns_away(test: LineTest, number: usize, numbers: &[i32]) -> bool
    ensures { result ≡ turns_away test number numbers.now }
{
    match test {
        LineTest::Pairs(last) => number > last || !are_pairs(numbers),
        LineTest::Names(variables) => !all_named(variables, numbers),
    }
}

// The number of the first line that is turned away; the lines are counted from `first`.
pub fn first_line(test: LineTest, text: &[u8], first: usize) -> Option<usize>
    requires { first + length text.now < 18446744073709551615 }
    ensures { result ≡ first_line test first (lines_of text.now) }
{
    let mut at: usize = 0;
    let mut number = first;
    // Kept as a while: the step is the length of what was read.
    while at < text.len() {
        let mut table = [0i32; 32];
        let next = next_line(text, at, &mut table);
        let count = next.count;
        if turns_away(test, number, &table[0..count]) {
            return Some(number);
        }
        number += 1;
        at = next.at;
    }
    None
}
