// The rows of a line, and the lines of a page.
ghost use Rattle.std.specs.Prelude.{◌≡◌, ◌/◌, ◌≤◌, min};
ghost use Rattle.page_blocks.specs.Scans.{value_rows, line_rows};

use page_words::{LineContent, Value};

fn value_rows(value: Value) -> usize
    ensures value { result ≡ value_rows value }
    ensures upper_bound { result ≤ 3 }
{
    match value {
        Value::Single(_) => 1,
        Value::Element(_, _) => 2,
        Value::Minus(_) => 2,
        Value::Binary(_, _, _) => 3,
        Value::Call(_) => 1,
    }
}

// The rows that a line has, without those of the blocks between its statement's lines.
pub fn rows_of(line: LineContent) -> usize
    ensures value { result ≡ line_rows line }
    ensures upper_bound { result ≤ 6 }
{
    match line {
        LineContent::Empty => 1,
        LineContent::Abort => 1,
        LineContent::Goto(_) => 1,
        LineContent::Label(_) => 1,
        LineContent::Store(_, value) => 3 + value_rows(value),
        LineContent::Put(_, _, _) => 5,
        LineContent::Opens => 1,
        LineContent::While(_) => 3,
        LineContent::If(_) => 3,
        LineContent::Turns => 1,
        LineContent::Closes => 0,
        LineContent::Return(_) => 2,
        LineContent::OpensCall(_, _) => 4,
        LineContent::Argument(_) => 2,
        LineContent::LastArgument(_) => 2,
        LineContent::OpensFunction(_) => 2,
        LineContent::OpensParameters(_) => 1,
        LineContent::Parameter(_) => 1,
        LineContent::LastParameter(_) => 2,
    }
}

// The whole lines of a page of so many bytes, as many of them as a page can have.
pub fn line_count(bytes: usize) -> usize
    ensures { result ≡ min (bytes / 81) 81958 }
{
    let lines = bytes / 81;
    if lines < 81958 {
        return lines;
    }
    81958
}
