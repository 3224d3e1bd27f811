// The sizes: how many lines the list from each row on has. From the last row to the first: every link leads to a row that is sized already.
ghost use Rattle.std.specs.Prelude.{◌≡◌, true, ◌+◌, ◌≤◌, ◌<◌, length};
ghost use Rattle.words.specs.Table.{row_count, number_at};
ghost use Rattle.words.specs.Links.{is_statement};
ghost use Rattle.language.specs.Decode.{expression_at, statement_at};
ghost use Rattle.check_kernel_statements.specs.Statements.{is_atom};
ghost use Rattle.flat_kernel_rows.specs.KernelTable.{KernelTable};
ghost use Rattle.flat_fate.specs.Code.{operand_of, always, if_lines, while_lines, statement_lines};
ghost use Rattle.flat_sizes.specs.Tables.{slot, Sized};

use arithmetic::is_true;
use check_structure::row_number::{narrow, wide};
use words::table::{number_at, word_at};

// The number at a link; 0 is no link.
pub fn slot_at(table: &[u16], link: usize) -> usize
    requires { link < length table.now }
    ensures { (result ≡ slot table.now link) × (result < 65536) }
{
    if link == 0 {
        return 0;
    }
    wide(table[link])
}

// A test that always holds: a constant other than 0.
pub fn is_always(rows: &[i32], atom: usize) -> bool
    requires { KernelTable rows.now × (atom < row_count rows.now) × (is_atom rows.now atom ≡ true) }
    ensures { result ≡ always (operand_of (expression_at rows.now atom)) }
{
    if number_at(rows, atom, 0) == 1 {
        return is_true(word_at(rows, atom, 1));
    }
    false
}

// The lines of an if, from those of its branches.
fn if_lines(yes: usize, no: usize) -> usize
    requires { (yes < 65536) × (no < 65536) }
    ensures { result ≡ if_lines yes no }
{
    if yes == 0 {
        if no == 0 {
            return 0;
        }
        return 1 + no;
    }
    if no == 0 {
        return 1 + yes;
    }
    2 + (yes + no)
}

// The lines of a while, from those of its body.
fn while_lines(endless: bool, body: usize) -> usize
    requires { body < 65536 }
    ensures { result ≡ while_lines endless body }
{
    if endless {
        return body + 1;
    }
    body + 2
}

// The lines of the statement at a row.
fn statement_lines(rows: &[i32], sizes: &[u16], row: usize) -> usize
    requires { KernelTable rows.now × Sized rows.now (row + 1) sizes.now × (row < row_count rows.now) × (is_statement rows.now row ≡ true) }
    ensures { result ≡ statement_lines (statement_at rows.now row) }
{
    let kind = number_at(rows, row, 0);
    if kind == 42 {
        return slot_at(sizes, number_at(rows, row, 1));
    }
    if kind == 43 {
        return if_lines(
            slot_at(sizes, number_at(rows, row, 2)),
            slot_at(sizes, number_at(rows, row, 3)),
        );
    }
    if kind == 44 {
        return while_lines(
            is_always(rows, number_at(rows, row, 1)),
            slot_at(sizes, number_at(rows, row, 2)),
        );
    }
    if kind == 40 {
        return 0;
    }
    if kind == 53 {
        return 0;
    }
    1
}

fn size_row(rows: &[i32], sizes: &mut [u16], row: usize)
    requires { KernelTable rows.now × Sized rows.now (row + 1) sizes.old × (row < row_count rows.now) }
    ensures { Sized rows.now row sizes.new }
{
    if number_at(rows, row, 0) < 40 {
        return;
    }
    let behind = slot_at(sizes, number_at(rows, row, 5));
    sizes[row] = narrow(statement_lines(rows, sizes, row) + behind);
}

// Fills the table of sizes.
pub fn size_rows(rows: &[i32], sizes: &mut [u16])
    requires { KernelTable rows.now × (row_count rows.now ≤ length sizes.old) }
    ensures { Sized rows.now 0 sizes.new }
{
    for row in (0..rows.len() / 6).rev() {
        size_row(rows, sizes, row);
    }
}
