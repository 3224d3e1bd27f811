// The whole line: "line number from 1 in five columns, right-set; one blank; indent; statement; blanks to the end", and the newline.
ghost use Rattle.std.specs.Prelude.{◌≡◌, [], ◌∷◌};
ghost use Rattle.page.specs.Lines.{indented};
ghost use Rattle.page.specs.Page.{indent};
ghost use Rattle.page_line.specs.Contents.{line_tree};
ghost use Rattle.page_line.specs.Printed.{LineRoom, Printed};

use super::LineAt;
use super::bytes::{lay_blanks, lay_byte, lay_line_number};
use super::contents::lay_content;
use page::Sizes;

// "Indent is two columns for each enclosing block below row 0, 36 columns at most."
fn indent_of(level: usize) -> usize
    ensures { result ≡ indent level }
{
    if level < 18 {
        return 2 * level;
    }
    36
}

// Prints a line behind as many as are `done`, and answers how many are done then.
pub fn print_line(
    sizes: Sizes,
    rows: &[i32],
    line: LineAt,
    level: usize,
    done: usize,
    page: &mut [u8],
) -> usize
    requires { LineRoom sizes rows.now line done page.old }
    ensures { Printed sizes (indented level (line_tree rows.now line) ∷ []) page.old done result page.new }
{
    let at = 81 * done;
    let end = at + 80;
    let numbered = lay_line_number(done + 1, at, page);
    let start = lay_blanks(indent_of(level) + 1, numbered, page);
    let said = lay_content(sizes, rows, line, start, page);
    let filled = lay_blanks(end - said, said, page);
    lay_byte(b'\n', filled, page);
    done + 1
}
