// What each line says.
ghost use Rattle.std.specs.Prelude.{[], ◌++◌, ◌+◌, ◌≤◌, ◌<◌, length};
ghost use Rattle.words.specs.Table.{row_count};
ghost use Rattle.language.specs.Trees.{give_back};
ghost use Rattle.language.specs.Decode.{expression_at, part_at};
ghost use Rattle.language_shapes.specs.Shapes.{mark_tree};
ghost use Rattle.page.specs.Page.{single_words, mark_words, line_words, parted};
ghost use Rattle.page_line.specs.Laid.{Laid};
ghost use Rattle.page_line.specs.Reads.{Readable};
ghost use Rattle.page_line.specs.Contents.{line_tree, LineInside, goto_bytes, label_bytes, test_bytes};

use super::LineAt;
use super::bytes::{lay_byte, lay_bytes, lay_lettered};
use super::expressions::{lay_assignment, lay_atom};
use super::functions::{lay_argument, lay_call, lay_function, lay_parameter, lay_return};
use language_shapes::MarkShape;
use page::Sizes;

// `goto L7;`
fn lay_goto(number: usize, at: usize, text: &mut [u8]) -> usize
    requires { at + length (goto_bytes number) ≤ length text.old }
    ensures { Laid (goto_bytes number) text.old at result text.new }
{
    let start = lay_bytes(b"goto ", at, text);
    let end = lay_lettered(b'L', number, start, text);
    lay_byte(b';', end, text)
}

// `L7:;`
fn lay_label(number: usize, at: usize, text: &mut [u8]) -> usize
    requires { at + length (label_bytes number) ≤ length text.old }
    ensures { Laid (label_bytes number) text.old at result text.new }
{
    let end = lay_lettered(b'L', number, at, text);
    lay_bytes(b":;", end, text)
}

fn lay_mark(sizes: Sizes, mark: MarkShape, at: usize, text: &mut [u8]) -> usize
    requires { at + length (parted (mark_words sizes (mark_tree [] mark))) ≤ length text.old }
    ensures { Laid (parted (mark_words sizes (mark_tree [] mark))) text.old at result text.new }
{
    match mark {
        MarkShape::Case(_) => at,
        MarkShape::Default => at,
        MarkShape::Label(number) => lay_label(number, at, text),
    }
}

// `while (X) {`, `if (X) {`
fn lay_test(
    opening: &[u8],
    sizes: Sizes,
    rows: &[i32],
    row: usize,
    at: usize,
    text: &mut [u8],
) -> usize
    requires readable { Readable rows.now × (row < row_count rows.now) }
    requires row_in_bounds { at + length (opening.now ++ test_bytes sizes (expression_at rows.now row)) ≤ length text.old }
    ensures { Laid (opening.now ++ test_bytes sizes (expression_at rows.now row)) text.old at result text.new }
{
    let start = lay_bytes(opening, at, text);
    let end = lay_atom(sizes, rows, row, start, text);
    lay_bytes(b") {", end, text)
}

// A return; one without an expression is none of the kernel's.
fn lay_given(sizes: Sizes, rows: &[i32], value: usize, at: usize, text: &mut [u8]) -> usize
    requires readable { Readable rows.now × (value < row_count rows.now) }
    requires value_in_bounds { at + length (parted (single_words sizes (give_back (part_at rows.now value)))) ≤ length text.old }
    ensures { Laid (parted (single_words sizes (give_back (part_at rows.now value)))) text.old at result text.new }
{
    if value == 0 {
        return at;
    }
    lay_return(sizes, rows, value, at, text)
}

// What a line says, its words parted by blanks.
pub fn lay_content(sizes: Sizes, rows: &[i32], line: LineAt, at: usize, text: &mut [u8]) -> usize
    requires readable { Readable rows.now × LineInside (row_count rows.now) line }
    requires line_in_bounds { at + length (parted (line_words sizes (line_tree rows.now line))) ≤ length text.old }
    ensures { Laid (parted (line_words sizes (line_tree rows.now line))) text.old at result text.new }
{
    match line {
        LineAt::Empty => lay_byte(b';', at, text),
        LineAt::Express(row) => lay_assignment(sizes, rows, row, at, text),
        LineAt::Goto(number) => lay_goto(number, at, text),
        LineAt::Abort => lay_bytes(b"abort();", at, text),
        LineAt::Mark(mark) => lay_mark(sizes, mark, at, text),
        LineAt::Opens => lay_byte(b'{', at, text),
        LineAt::While(row) => lay_test(b"while (", sizes, rows, row, at, text),
        LineAt::If(row) => lay_test(b"if (", sizes, rows, row, at, text),
        LineAt::Turns => lay_bytes(b"} else {", at, text),
        LineAt::Closes => lay_byte(b'}', at, text),
        LineAt::Return(value) => lay_given(sizes, rows, value, at, text),
        LineAt::OpensCall(place, number) => lay_call(sizes, rows, place, number, at, text),
        LineAt::Argument(row) => lay_argument(b",", sizes, rows, row, at, text),
        LineAt::LastArgument(row) => lay_argument(b");", sizes, rows, row, at, text),
        LineAt::OpensFunction(number) => lay_function(b"() {", number, at, text),
        LineAt::OpensParameters(number) => lay_function(b"(", number, at, text),
        LineAt::Parameter(word) => lay_parameter(b",", sizes, word, at, text),
        LineAt::LastParameter(word) => lay_parameter(b") {", sizes, word, at, text),
    }
}
