// Calls, definitions and returns.
ghost use Rattle.std.specs.Prelude.{◌++◌, ◌+◌, ◌≤◌, ◌<◌, length};
ghost use Rattle.words.specs.Table.{row_count};
ghost use Rattle.language.specs.Decode.{expression_at, place_of};
ghost use Rattle.page.specs.Page.{atom_word};
ghost use Rattle.page_line.specs.Laid.{Laid};
ghost use Rattle.page_line.specs.Reads.{Readable};
ghost use Rattle.page_line.specs.Contents.{return_bytes, call_bytes, function_bytes, parameter_bytes};

use super::bytes::{lay_byte, lay_bytes, lay_lettered, lay_name};
use super::expressions::{lay_atom, lay_read};
use super::shapes_at::place_at;
use page::Sizes;

// `return X;`
pub fn lay_return(sizes: Sizes, rows: &[i32], row: usize, at: usize, text: &mut [u8]) -> usize
    requires readable { Readable rows.now × (row < row_count rows.now) }
    requires row_in_bounds { at + length (return_bytes sizes (expression_at rows.now row)) ≤ length text.old }
    ensures { Laid (return_bytes sizes (expression_at rows.now row)) text.old at result text.new }
{
    let start = lay_bytes(b"return ", at, text);
    let end = lay_atom(sizes, rows, row, start, text);
    lay_byte(b';', end, text)
}

// `P = fN(`
pub fn lay_call(
    sizes: Sizes,
    rows: &[i32],
    place: usize,
    number: usize,
    at: usize,
    text: &mut [u8],
) -> usize
    requires readable { Readable rows.now × (place < row_count rows.now) }
    requires number_in_bounds { at + length (call_bytes sizes (place_of (expression_at rows.now place)) number) ≤ length text.old }
    ensures { Laid (call_bytes sizes (place_of (expression_at rows.now place)) number) text.old at result text.new }
{
    let named = lay_read(sizes, rows, place_at(rows, place), at, text);
    let equals = lay_bytes(b" = ", named, text);
    let called = lay_lettered(b'f', number, equals, text);
    lay_byte(b'(', called, text)
}

// `X,`, `X);`
pub fn lay_argument(
    ending: &[u8],
    sizes: Sizes,
    rows: &[i32],
    row: usize,
    at: usize,
    text: &mut [u8],
) -> usize
    requires readable { Readable rows.now × (row < row_count rows.now) }
    requires ending_in_bounds { at + length (atom_word sizes (expression_at rows.now row) ++ ending.now) ≤ length text.old }
    ensures { Laid (atom_word sizes (expression_at rows.now row) ++ ending.now) text.old at result text.new }
{
    let end = lay_atom(sizes, rows, row, at, text);
    lay_bytes(ending, end, text)
}

// `int fN(`, `int fN() {`
pub fn lay_function(ending: &[u8], number: usize, at: usize, text: &mut [u8]) -> usize
    requires { at + length (function_bytes number ending.now) ≤ length text.old }
    ensures { Laid (function_bytes number ending.now) text.old at result text.new }
{
    let start = lay_bytes(b"int ", at, text);
    let end = lay_lettered(b'f', number, start, text);
    lay_bytes(ending, end, text)
}

// `int lN,`, `int lN) {`
pub fn lay_parameter(ending: &[u8], sizes: Sizes, word: usize, at: usize, text: &mut [u8]) -> usize
    requires { at + length (parameter_bytes sizes word ending.now) ≤ length text.old }
    ensures { Laid (parameter_bytes sizes word ending.now) text.old at result text.new }
{
    let start = lay_bytes(b"int ", at, text);
    let end = lay_name(sizes, word, start, text);
    lay_bytes(ending, end, text)
}
