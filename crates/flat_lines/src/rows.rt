// The lines of a row, by its kind, and of all rows.
ghost use Rattle.std.specs.Prelude.{◌≡◌, ◌+◌, ◌<◌};
ghost use Rattle.words.specs.Table.{row_count, number_at};
ghost use Rattle.flat_fate.specs.FlatWords.{flattened};
ghost use Rattle.flat_rows.specs.Places.{own_lines};
ghost use Rattle.flat_rows.specs.LinesPut.{put_all};
ghost use Rattle.flat_sizes.specs.Tables.{Sized, Labelled};
ghost use Rattle.flat_lines.specs.Lent.{Tables, Exact, Standing, Wrote};

use super::lines::{put_jump, put_line};
use super::operations::put_assignment;
use super::tests::{put_if, put_while};
use check_structure::row_number::wide;
use flat_sizes::sizes::slot_at;
use words::table::number_at;

// An assignment at a line.
fn put_expression_row(out: &mut [i32], rows: &[i32], row: usize, line: usize)
    requires { Standing rows.now row line out.old × (number_at rows.now row 0 ≡ 41) }
    ensures { out.new ≡ put_all (own_lines rows.now row) out.old }
{
    put_assignment(out, rows, line, number_at(rows, row, 1));
}

fn put_if_row(out: &mut [i32], rows: &[i32], sizes: &[u16], row: usize, line: usize)
    requires { Standing rows.now row line out.old × (number_at rows.now row 0 ≡ 43) × Sized rows.now 0 sizes.now }
    ensures { out.new ≡ put_all (own_lines rows.now row) out.old }
{
    let test = number_at(rows, row, 1);
    let yes = slot_at(sizes, number_at(rows, row, 2));
    let no = slot_at(sizes, number_at(rows, row, 3));
    put_if(out, rows, test, yes, no, line);
}

fn put_while_row(out: &mut [i32], rows: &[i32], sizes: &[u16], row: usize, line: usize)
    requires { Standing rows.now row line out.old × (number_at rows.now row 0 ≡ 44) × Sized rows.now 0 sizes.now }
    ensures { out.new ≡ put_all (own_lines rows.now row) out.old }
{
    let test = number_at(rows, row, 1);
    let body = slot_at(sizes, number_at(rows, row, 2));
    put_while(out, rows, test, body, line);
}

// A goto jumps to its label's line.
fn put_goto_row(out: &mut [i32], rows: &[i32], labels: &[u16], row: usize, line: usize)
    requires { Standing rows.now row line out.old × (number_at rows.now row 0 ≡ 52) × Labelled rows.now (row_count rows.now) labels.now }
    ensures { out.new ≡ put_all (own_lines rows.now row) out.old }
{
    let label = number_at(rows, row, 1);
    put_jump(out, line, wide(labels[label]));
}

fn put_abort_row(out: &mut [i32], rows: &[i32], row: usize, line: usize)
    requires { Standing rows.now row line out.old × (number_at rows.now row 0 ≡ 57) }
    ensures { out.new ≡ put_all (own_lines rows.now row) out.old }
{
    put_line(out, line, 57, 0, 0, 0, 0);
}

// The own lines of a row.
fn put_row(out: &mut [i32], rows: &[i32], sizes: &[u16], lines: &[u16], labels: &[u16], row: usize)
    requires { Tables rows.now sizes.now lines.now labels.now × (row < row_count rows.now) × Exact rows.now out.old }
    ensures { out.new ≡ put_all (own_lines rows.now row) out.old }
{
    let kind = number_at(rows, row, 0);
    if kind < 41 {
        return;
    }
    let line = wide(lines[row]);
    if kind == 41 {
        put_expression_row(out, rows, row, line);
        return;
    }
    if kind == 43 {
        put_if_row(out, rows, sizes, row, line);
        return;
    }
    if kind == 44 {
        put_while_row(out, rows, sizes, row, line);
        return;
    }
    if kind == 52 {
        put_goto_row(out, rows, labels, row, line);
        return;
    }
    if kind == 57 {
        put_abort_row(out, rows, row, line);
    }
}

// Writes the flat list of a legal kernel table into a list that has room for it and no more.
pub fn put_rows(out: &mut [i32], rows: &[i32], sizes: &[u16], lines: &[u16], labels: &[u16])
    requires { Tables rows.now sizes.now lines.now labels.now × Exact rows.now out.old }
    ensures { out.new ≡ flattened rows.now }
{
    for row in 0..rows.len() / 6 {
        put_row(out, rows, sizes, lines, labels, row);
    }
}
