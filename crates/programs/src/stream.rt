// Where the cases stand in the input. A case is a line of numbers parted by tabs (budget, length of the text, start words), and then
// that many bytes of text.
ghost use Rattle.std.specs.Prelude.{◌≤◌, ◌<◌, length};
ghost use Rattle.programs.specs.Cases.{Inside};

use text_lines::line::piece_end;
use text_numbers::number::natural_of;

// A case at the start of the input: its budget, where its start words begin, each behind a tab, where its line ends, and where its
// text ends.
#[derive(Clone, Copy, PartialEq, Eq)]
pub struct Case {
    pub budget: u32,
    pub words: usize,
    pub line: usize,
    pub end: usize,
}

// The case whose line ends at `line` and whose start words begin at `words`, where its text of so many bytes is whole.
fn case_of(input: &[u8], budget: u32, words: usize, line: usize, bytes: u32) -> Option<Case>
    requires { (words ≤ line) × (line < length input.now) }
    ensures { Inside result input.now }
{
    let text = line + 1;
    let size = bytes as usize;
    if input.len() - text < size {
        return None;
    }
    Some(Case {
        budget,
        words,
        line,
        end: text + size,
    })
}

pub fn find_case(input: &[u8]) -> Option<Case>
    ensures { Inside result input.now }
{
    let line = piece_end(input, 0, b'\n');
    if line >= input.len() {
        return None;
    }
    let first = piece_end(&input[..line], 0, b'\t');
    if first >= line {
        return None;
    }
    let second = piece_end(&input[..line], first + 1, b'\t');
    let budget = natural_of(&input[..first], u32::MAX)?;
    let bytes = natural_of(&input[first + 1..second], u32::MAX)?;
    case_of(input, budget, second, line, bytes)
}

// Moves the bytes from `from` to `end` to the start of the buffer.
pub fn keep_rest(buffer: &mut [u8], from: usize, end: usize)
    requires { (from ≤ end) × (end ≤ length buffer.old) }
{
    buffer.copy_within(from..end, 0);
}
