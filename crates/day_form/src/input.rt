// The parts of the input: where the rule ends, where the lines behind it begin, and how many lines there are.
ghost use Rattle.std.specs.Prelude.{◌≡◌, ◌&&◌, ◌≤◌, eqb, length};
ghost use Rattle.text_lines.specs.Line.{newline, lines_of};
ghost use Rattle.day_form.specs.Input.{rule_size, Behind};

use text_lines::line::piece_end;

fn is_empty_line(starts: bool, byte: u8) -> bool
    ensures { result ≡ (starts && eqb byte newline) }
{
    starts && byte == b'\n'
}

// How many bytes the rule has: those before the first empty line.
pub fn rule_size(input: &[u8]) -> usize
    ensures { result ≡ rule_size input.now }
{
    let mut starts = true;
    for (at, byte) in input.iter().enumerate() {
        if is_empty_line(starts, *byte) {
            return at;
        }
        starts = *byte == b'\n';
    }
    input.len()
}

// Where the lines behind the empty line begin; without one, at the end.
pub fn lines_start(input: &[u8], size: usize) -> usize
    requires { size ≤ length input.now }
    ensures { Behind input.now size result }
{
    if size == input.len() {
        return size;
    }
    size + 1
}

// How many lines a text has.
pub fn count_lines(text: &[u8]) -> usize
    ensures { result ≡ length (lines_of text.now) }
{
    let mut at: usize = 0;
    let mut count: usize = 0;
    // Kept as a while: the step is the length of what was read.
    while at < text.len() {
        at = piece_end(text, at, b'\n') + 1;
        count += 1;
    }
    count
}
