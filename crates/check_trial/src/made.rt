// Tables that are made here: deep ones, long ones and large switches of both forms, and one without a header.
ghost use Rattle.std.specs.Prelude.{◌≤◌};

use super::verdict::check_table;
use std::io;
use words::Form;

// A number as a word; 0 for one that is none.
fn word(number: usize) -> i32 {
    i32::try_from(number).unwrap_or(0)
}

// Changes a word of a table.
fn set(rows: &mut [i32], word: usize, value: i32) {
    if let Some(old) = rows.get_mut(word) {
        *old = value;
    }
}

// Writes the kind, a and next of a row.
fn put(rows: &mut [i32], row: usize, kind: i32, a: usize, next: usize) {
    if row < 65536 {
        set(rows, 6 * row, kind);
        set(rows, 6 * row + 1, word(a));
        set(rows, 6 * row + 5, word(next));
    }
}

// So many blocks, each but the last in the one before.
fn put_blocks(rows: &mut [i32], count: usize) {
    for row in 0..count {
        put(rows, row, 42, row + 1, 0);
    }
    put(rows, count.saturating_sub(1), 42, 0, 0);
}

// The rows from `first` to `last` are one list, with numbers that are `distance` apart.
fn put_list(rows: &mut [i32], kind: i32, first: usize, last: usize, distance: usize) {
    for row in first..last {
        put(
            rows,
            row,
            kind,
            (row - first).saturating_mul(distance),
            row + 1,
        );
    }
    put(
        rows,
        last,
        kind,
        last.saturating_sub(first).saturating_mul(distance),
        0,
    );
}

// How many words a header without arrays has.
fn leading(form: Form) -> usize
    ensures { result ≤ 3 }
{
    match form {
        Form::Source => 1,
        Form::Kernel => 3,
    }
}

fn check_rows(rt: &impl Print, form: Form, rows: &[i32], count: usize) -> io::Result<()> {
    let header = [0i32; 3];
    let words = leading(form);
    if count < 65536 {
        if 6 * count <= rows.len() {
            return check_table(rt, form, &header[..words], &rows[..6 * count]);
        }
    }
    Ok(())
}

// A table of depth `count`.
pub fn check_nested(rt: &impl Print, form: Form, count: usize) -> io::Result<()> {
    let mut rows = [0i32; 245880];
    put_blocks(&mut rows, count);
    check_rows(rt, form, &rows, count)
}

// A table with one list of all its other rows.
pub fn check_list(rt: &impl Print, count: usize) -> io::Result<()> {
    let mut rows = [0i32; 12294];
    put(&mut rows, 0, 42, 1, 0);
    put_list(&mut rows, 40, 1, count.saturating_sub(1), 0);
    check_rows(rt, Form::Source, &rows, count)
}

// A table that is one switch, over the constant of row 2, of the cases from row 3 on; the last has the value of the case at position
// `last`.
pub fn check_switch(rt: &impl Print, distance: usize, last: usize) -> io::Result<()> {
    let mut rows = [0i32; 12288];
    put(&mut rows, 0, 42, 1, 0);
    put(&mut rows, 1, 47, 2, 0);
    set(&mut rows, 8, 3);
    put(&mut rows, 2, 1, 0, 0);
    put_list(&mut rows, 48, 3, 2047, distance);
    put(&mut rows, 2047, 48, last.saturating_mul(distance), 0);
    check_rows(rt, Form::Source, &rows, 2048)
}

// A kernel table of nested blocks, in the innermost a list of gotos at the given depth, their labels in the outermost.
pub fn check_gotos(rt: &impl Print, depth: usize) -> io::Result<()> {
    let mut rows = [0i32; 245880];
    put_blocks(&mut rows, depth);
    put(&mut rows, 1, 42, 2, 20700);
    put_list(&mut rows, 52, depth.saturating_sub(1), 20699, 1);
    put_list(&mut rows, 53, 20700, 40979, 1);
    check_rows(rt, Form::Kernel, &rows, 40980)
}

// Rows that are all 0, one more than the kernel form may have.
pub fn check_many(rt: &impl Print) -> io::Result<()> {
    let rows = [0i32; 245886];
    check_rows(rt, Form::Kernel, &rows, 40981)
}

// An empty block, and no header word.
pub fn check_no_header(rt: &impl Print) -> io::Result<()> {
    let none = [0i32; 1];
    check_table(rt, Form::Source, &none[..0], &[42, 0, 0, 0, 0, 0])
}
