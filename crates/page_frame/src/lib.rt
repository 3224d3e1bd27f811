// A line of a page in its frame (docs/PAGES.md): its number in five columns, a blank, the indent, the statement, blanks, and the newline.
#![tactic(auto)]

ghost use Rattle.std.specs.Prelude.{◌≡◌, ◌-◌, length};
ghost use Rattle.page.specs.Page.{indent};
ghost use Rattle.page_frame.specs.Frames.{leading_blanks, filled_size, level_of, is_numbered, levelled, statement_read, body_read, line_in, statement_in};

use page_atoms::atoms::number_below;
use page_statements::lines::line;
use page_words::{LineContent, Names};

// How many blanks stand first.
fn leading_blanks(text: &[u8]) -> usize
    ensures { result ≡ leading_blanks text.now }
{
    let mut i: usize = 0;
    while i < text.len() {
        if text[i] != b' ' {
            return i;
        }
        i += 1;
    }
    i
}

// How many bytes there are up to the last that is no blank.
fn filled_size(text: &[u8]) -> usize
    ensures { result ≡ filled_size text.now }
{
    let mut end = text.len();
    while end > 0 {
        if text[end - 1] != b' ' {
            return end;
        }
        end -= 1;
    }
    end
}

fn indent_of(level: usize) -> usize
    ensures { result ≡ indent level }
{
    if level < 18 {
        return 2 * level;
    }
    36
}

fn one_less(n: usize) -> usize
    ensures { result ≡ n - 1 }
{
    if n == 0 {
        return 0;
    }
    n - 1
}

// The level of a line among so many blocks: one that closes or turns stands as its statement's first line.
fn level_of(depth: usize, line: LineContent) -> usize
    ensures { result ≡ level_of depth line }
{
    match line {
        LineContent::Closes => one_less(depth),
        LineContent::Turns => one_less(depth),
        LineContent::Empty => depth,
        LineContent::Abort => depth,
        LineContent::Goto(_) => depth,
        LineContent::Label(_) => depth,
        LineContent::Store(_, _) => depth,
        LineContent::Put(_, _, _) => depth,
        LineContent::Opens => depth,
        LineContent::While(_) => depth,
        LineContent::If(_) => depth,
        LineContent::Return(_) => depth,
        LineContent::OpensCall(_, _) => depth,
        LineContent::Argument(_) => depth,
        LineContent::LastArgument(_) => depth,
        LineContent::OpensFunction(_) => depth,
        LineContent::OpensParameters(_) => depth,
        LineContent::Parameter(_) => depth,
        LineContent::LastParameter(_) => depth,
    }
}

// The five columns are this number, right-set.
fn is_numbered(number: u32, columns: &[u8]) -> bool
    ensures { result ≡ is_numbered number columns.now }
{
    let start = leading_blanks(columns);
    let read = number_below(&columns[start..], 100000);
    match read {
        Some(found) => found == number,
        None => false,
    }
}

// A line that was read stands so far in as its level asks.
fn at_level(depth: usize, start: usize, read: Option<LineContent>) -> Option<LineContent>
    ensures { result ≡ levelled depth start read }
{
    let Some(found) = read else {
        return None;
    };
    if start == indent_of(level_of(depth, found)) {
        return Some(found);
    }
    None
}

// The statement between blanks, wherever it begins.
fn statement(names: Names, text: &[u8]) -> Option<LineContent>
    ensures { result ≡ statement_read names text.now }
{
    let start = leading_blanks(text);
    let end = filled_size(text);
    if end < start {
        return None;
    }
    line(names, &text[start..end])
}

// What stands between a line's number and its newline.
fn body(names: Names, depth: usize, text: &[u8]) -> Option<LineContent>
    ensures { result ≡ body_read names depth text.now }
{
    at_level(depth, leading_blanks(text), statement(names, text))
}

// The line that these 81 bytes are, with this number, among so many blocks.
pub fn line_in(names: Names, number: u32, depth: usize, text: &[u8]) -> Option<LineContent>
    requires { length text.now ≡ 81 }
    ensures { result ≡ line_in names number depth text.now }
{
    if !is_numbered(number, &text[0..5]) {
        return None;
    }
    if text[5] != b' ' {
        return None;
    }
    if text[80] != b'\n' {
        return None;
    }
    body(names, depth, &text[6..80])
}

// The statement of these 81 bytes, whatever their number and their indent.
pub fn statement_in(names: Names, text: &[u8]) -> Option<LineContent>
    requires { length text.now ≡ 81 }
    ensures { result ≡ statement_in names text.now }
{
    statement(names, &text[6..80])
}
