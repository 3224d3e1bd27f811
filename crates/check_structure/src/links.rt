// How often each row is linked, and cause 5.
ghost use Rattle.std.specs.Prelude.{◌≡◌, ◌+◌, ◌*◌, ◌/◌, ◌<◌, ◌≤◌, length};
ghost use Rattle.check_structure.specs.Links.{not_once, lone_block};
ghost use Rattle.check_structure.specs.Passes.{marked, marked_link, Marked, Cleared};

use check_grammar::kinds::KindTable;
use words::table::number_at;

// Marks one more link to a row: 0, 1, or 2 for more.
fn mark(marks: &mut [u8], row: usize)
    ensures { marks.new ≡ marked marks.old row }
{
    if row < marks.len() {
        let mark = marks[row];
        if mark < 2 {
            marks[row] = mark + 1;
        }
    }
}

// Marks the row that a field links; 0 is no link.
fn mark_link(marks: &mut [u8], linked: usize)
    ensures { marks.new ≡ marked_link marks.old linked }
{
    if linked != 0 {
        mark(marks, linked);
    }
}

// Marks the links of one row.
fn mark_row(kinds: &KindTable, rows: &[i32], marks: &mut [u8], row: usize)
    requires { (6 * row + 5 < length rows.now) × Marked rows.now (6 * row) marks.old }
    ensures { (length marks.new ≡ length marks.old) × Marked rows.now (6 * row + 6) marks.new }
{
    for field in 0..6 {
        mark_link(marks, kinds.link(rows, row, field));
    }
}

// Marks every link of the table, in one pass.
pub fn mark_links(kinds: &KindTable, rows: &[i32], marks: &mut [u8])
    requires { (6 * (length rows.now / 6) ≡ length rows.now) × Marked rows.now 0 marks.old }
    ensures { Marked rows.now (length rows.now) marks.new }
{
    let count = rows.len() / 6;
    for row in 0..count {
        mark_row(kinds, rows, marks, row);
    }
}

// Takes the marks of so many rows away.
pub fn unmark(count: usize, marks: &mut [u8])
    requires { count ≤ length marks.old }
    ensures { Cleared count marks.old marks.new }
{
    for row in 0..count {
        marks[row] = 0;
    }
}

fn is_lone_block(rows: &[i32]) -> bool
    requires { 5 < length rows.now }
    ensures { result ≡ lone_block rows.now }
{
    if number_at(rows, 0, 0) == 42 {
        return number_at(rows, 0, 5) == 0;
    }
    false
}

// Cause 5, with how often the row is linked.
pub fn is_not_once(rows: &[i32], count: u8, row: usize) -> bool
    requires { 6 * row + 5 < length rows.now }
    ensures { result ≡ not_once rows.now count row }
{
    if row == 0 {
        return !is_lone_block(rows);
    }
    count != 1
}
