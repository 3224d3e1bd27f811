// The lines: each row hands their lines to the rows that it links, from the first row to the last; a label's is kept by its number.
ghost use Rattle.std.specs.Prelude.{◌≡◌, true, ◌+◌, ◌≤◌, ◌<◌, length, get_or};
ghost use Rattle.words.specs.Table.{row_count, number_at};
ghost use Rattle.words.specs.Links.{is_statement};
ghost use Rattle.flat_kernel_rows.specs.KernelTable.{KernelTable};
ghost use Rattle.flat_fate.specs.Branches.{first_at, second_at, body_at};
ghost use Rattle.flat_rows.specs.Places.{line_of};
ghost use Rattle.flat_sizes.specs.Tables.{stored, Sized, LinesPlaced, PartsPlaced, NextPlaced, Labelled};

use super::sizes::{is_always, slot_at};
use check_structure::row_number::{narrow, wide};
use words::table::number_at;

// Stores the line of the row at a link, if there is one.
fn store_line(lines: &mut [u16], link: usize, line: usize)
    requires { (link < length lines.old) × (line < 65536) }
    ensures { lines.new ≡ stored lines.old link line }
{
    if link == 0 {
        return;
    }
    lines[link] = narrow(line);
}

// Where the first branch of an if stands, from the sizes of both.
fn first_at(yes: usize, no: usize, line: usize) -> usize
    requires { (yes < 65536) × (no < 65536) × (line < 65536) }
    ensures { result ≡ first_at yes no line }
{
    if yes == 0 {
        if no == 0 {
            return line;
        }
        return line + (1 + no);
    }
    line + 1
}

// Where the second branch stands.
fn second_at(yes: usize, no: usize, line: usize) -> usize
    requires { (yes < 65536) × (no < 65536) × (line < 65536) }
    ensures { result ≡ second_at yes no line }
{
    if yes == 0 {
        if no == 0 {
            return line;
        }
        return line + 1;
    }
    if no == 0 {
        return line + (1 + yes);
    }
    line + (2 + yes)
}

// Where the body of a while stands.
fn body_at(endless: bool, line: usize) -> usize
    requires { line < 65536 }
    ensures { result ≡ body_at endless line }
{
    if endless {
        return line;
    }
    line + 1
}

// Hands their lines to the first item of a block, the branches of an if, the body of a while.
fn place_parts(rows: &[i32], sizes: &[u16], lines: &mut [u16], row: usize, line: usize)
    requires { KernelTable rows.now × Sized rows.now 0 sizes.now × (row_count rows.now ≤ length lines.old) × (row < row_count rows.now) × (is_statement rows.now row ≡ true) × (line ≡ line_of rows.now row) }
    ensures { PartsPlaced rows.now row lines.old lines.new }
{
    let kind = number_at(rows, row, 0);
    if kind == 42 {
        store_line(lines, number_at(rows, row, 1), line);
        return;
    }
    if kind == 43 {
        let yes = slot_at(sizes, number_at(rows, row, 2));
        let no = slot_at(sizes, number_at(rows, row, 3));
        store_line(lines, number_at(rows, row, 2), first_at(yes, no, line));
        store_line(lines, number_at(rows, row, 3), second_at(yes, no, line));
        return;
    }
    if kind == 44 {
        let endless = is_always(rows, number_at(rows, row, 1));
        store_line(lines, number_at(rows, row, 2), body_at(endless, line));
    }
}

// Hands its line to the item behind.
fn place_next(rows: &[i32], sizes: &[u16], lines: &mut [u16], row: usize, line: usize)
    requires { KernelTable rows.now × Sized rows.now 0 sizes.now × (row_count rows.now ≤ length lines.old) × (row < row_count rows.now) × (is_statement rows.now row ≡ true) × (line ≡ line_of rows.now row) }
    ensures { NextPlaced rows.now row lines.old lines.new }
{
    let next = number_at(rows, row, 5);
    let behind = slot_at(sizes, next);
    store_line(lines, next, line + (wide(sizes[row]) - behind));
}

// Keeps the line of a label.
fn place_label(rows: &[i32], labels: &mut [u16], row: usize, line: usize)
    requires { KernelTable rows.now × Labelled rows.now row labels.old × (row < row_count rows.now) × (is_statement rows.now row ≡ true) × (line ≡ line_of rows.now row) }
    ensures { Labelled rows.now (row + 1) labels.new }
{
    if number_at(rows, row, 0) == 53 {
        let label = number_at(rows, row, 1);
        labels[label] = narrow(line);
    }
}

fn place_row(rows: &[i32], sizes: &[u16], lines: &mut [u16], labels: &mut [u16], row: usize)
    requires { KernelTable rows.now × Sized rows.now 0 sizes.now × LinesPlaced rows.now row lines.old × Labelled rows.now row labels.old × (row < row_count rows.now) }
    ensures { LinesPlaced rows.now (row + 1) lines.new × Labelled rows.now (row + 1) labels.new }
{
    if number_at(rows, row, 0) < 40 {
        return;
    }
    let line = wide(lines[row]);
    place_parts(rows, sizes, lines, row, line);
    place_next(rows, sizes, lines, row, line);
    place_label(rows, labels, row, line);
}

// Fills the tables of lines and of labels. Row 0 stands at line 0.
pub fn place_rows(rows: &[i32], sizes: &[u16], lines: &mut [u16], labels: &mut [u16])
    requires { KernelTable rows.now × Sized rows.now 0 sizes.now × (row_count rows.now ≤ length lines.old) × (get_or lines.old 0 0 ≡ 0) × (40980 ≤ length labels.old) }
    ensures { LinesPlaced rows.now (row_count rows.now) lines.new × Labelled rows.now (row_count rows.now) labels.new }
{
    for row in 0..rows.len() / 6 {
        place_row(rows, sizes, lines, labels, row);
    }
}
