// The lines that tell what sets hold: the numbers of the variables, in a second line those of the arrays, and in a third those of the
// declared words. A writer puts its bytes at the start of `text`, and answers how many they are.
#![tactic(auto)]

ghost use Rattle.std.specs.Prelude.{◌≡◌, [], ◌∷◌, ◌+◌, ◌*◌, ◌≤◌, ◌<◌, length};
ghost use Rattle.words.specs.Word.{pick};
ghost use Rattle.text_numbers.specs.Number.{digits};
ghost use Rattle.text_numbers.specs.Writer.{Put};
ghost use Rattle.text_report.specs.Lines.{blank};
ghost use Rattle.command_written_lines.specs.Lines.{numbers, name_of, bits_of, is_in, written_line, written_lines, writes_room};

use text_report::field::{put_bytes, put_count};
use write_sets::WriteSet;
use write_sets::arrays::has_array;

// What a line is about.
#[derive(Clone, Copy, PartialEq, Eq)]
pub enum PlaceSort {
    Variables,
    Arrays,
    Declared,
}

// A number, where it is wanted.
fn put_if(wanted: bool, number: usize, text: &mut [u8]) -> usize
    requires { 21 ≤ length text.old }
    ensures put { Put (pick wanted (blank ∷ digits number) []) text.old result text.new }
    ensures upper_bound { result ≤ 21 }
{
    if wanted {
        return put_count(number as u64, text);
    }
    0
}

// How many numbers there are.
fn bits_of(sort: PlaceSort) -> usize
    ensures { result ≡ bits_of sort }
{
    match sort {
        PlaceSort::Variables => 256,
        PlaceSort::Arrays => 32,
        PlaceSort::Declared => 64,
    }
}

// Whether the number i is in its set.
fn is_in(set: WriteSet, arrays: u32, sort: PlaceSort, i: usize) -> bool
    requires { i < bits_of sort }
    ensures { result ≡ is_in set arrays sort i }
{
    match sort {
        PlaceSort::Variables => set.has_variable(i),
        PlaceSort::Arrays => has_array(arrays, i),
        PlaceSort::Declared => set.has_declared(i),
    }
}

fn put_numbers(set: WriteSet, arrays: u32, sort: PlaceSort, text: &mut [u8]) -> usize
    requires { 21 * bits_of sort ≤ length text.old }
    ensures put { Put (numbers (bits_of sort) (is_in set arrays sort)) text.old result text.new }
    ensures upper_bound { result ≤ 21 * bits_of sort }
{
    let mut at: usize = 0;
    for i in 0..bits_of(sort) {
        at += put_if(is_in(set, arrays, sort, i), i, &mut text[at..]);
    }
    at
}

fn put_name(sort: PlaceSort, text: &mut [u8]) -> usize
    requires { 9 ≤ length text.old }
    ensures { Put (name_of sort) text.old result text.new }
{
    match sort {
        PlaceSort::Variables => put_bytes(b"variables", text),
        PlaceSort::Arrays => put_bytes(b"arrays", text),
        PlaceSort::Declared => put_bytes(b"declared", text),
    }
}

fn put_line(set: WriteSet, arrays: u32, sort: PlaceSort, text: &mut [u8]) -> usize
    requires { 21 * bits_of sort + 10 ≤ length text.old }
    ensures put { Put (written_line sort (is_in set arrays sort)) text.old result text.new }
    ensures upper_bound { result ≤ 21 * bits_of sort + 10 }
{
    let named = put_name(sort, text);
    let end = named + put_numbers(set, arrays, sort, &mut text[named..]);
    text[end] = b'\n';
    end + 1
}

// All lines.
pub fn put_lines(set: WriteSet, arrays: u32, text: &mut [u8]) -> usize
    requires { writes_room ≤ length text.old }
    ensures { Put (written_lines (is_in set arrays)) text.old result text.new }
{
    let first = put_line(set, arrays, PlaceSort::Variables, text);
    let second = first + put_line(set, arrays, PlaceSort::Arrays, &mut text[first..]);
    second + put_line(set, arrays, PlaceSort::Declared, &mut text[second..])
}
