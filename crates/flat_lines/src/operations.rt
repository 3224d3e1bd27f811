// The line of an assignment, read from its rows.
ghost use Rattle.std.specs.Prelude.{◌≡◌, true, ◌+◌, ◌*◌, ◌≤◌, ◌<◌, length};
ghost use Rattle.words.specs.Table.{row_count, number_at};
ghost use Rattle.language.specs.Decode.{expression_at};
ghost use Rattle.check_kernel_statements.specs.Statements.{is_atom, fits_variable, is_assignment};
ghost use Rattle.flat_kernel_rows.specs.KernelTable.{KernelTable};
ghost use Rattle.flat.specs.Words.{operation_parts};
ghost use Rattle.flat_fate.specs.Code.{assigned, operation_of};
ghost use Rattle.flat_rows.specs.LinesPut.{put_line};
ghost use Rattle.flat_lines.specs.Lent.{Assigning};

use super::lines::{atom_sort, put_line};
use words::table::{number_at, word_at};

// An atom is copied to the variable `target`.
fn put_copy(out: &mut [i32], rows: &[i32], line: usize, target: usize, value: usize)
    requires { Assigning rows.now value line target out.old × (is_atom rows.now value ≡ true) }
    ensures { out.new ≡ put_line line (operation_parts (assigned target (expression_at rows.now value))) out.old }
{
    let sort = atom_sort(rows, value);
    let word = word_at(rows, value, 1);
    put_line(out, line, 1 + 64 * sort, target, word, 0, 0);
}

// An element is read into the variable.
fn put_fetch(out: &mut [i32], rows: &[i32], line: usize, target: usize, value: usize)
    requires { Assigning rows.now value line target out.old × (number_at rows.now value 0 ≡ 3) × (is_atom rows.now (number_at rows.now value 2) ≡ true) }
    ensures { out.new ≡ put_line line (operation_parts (assigned target (expression_at rows.now value))) out.old }
{
    let index = number_at(rows, value, 2);
    let sort = atom_sort(rows, index);
    let array = word_at(rows, value, 1);
    let word = word_at(rows, index, 1);
    put_line(out, line, 3 + 128 * sort, target, array, word, 0);
}

// Minus an atom.
fn put_minus(out: &mut [i32], rows: &[i32], line: usize, target: usize, value: usize)
    requires { Assigning rows.now value line target out.old × (number_at rows.now value 0 ≡ 4) × (is_atom rows.now (number_at rows.now value 1) ≡ true) }
    ensures { out.new ≡ put_line line (operation_parts (assigned target (expression_at rows.now value))) out.old }
{
    let operand = number_at(rows, value, 1);
    let sort = atom_sort(rows, operand);
    let word = word_at(rows, operand, 1);
    put_line(out, line, 4 + 64 * sort, target, word, 0, 0);
}

// An operation on two atoms.
fn put_binary(out: &mut [i32], rows: &[i32], line: usize, target: usize, value: usize)
    requires { Assigning rows.now value line target out.old × (6 ≤ number_at rows.now value 0) × (number_at rows.now value 0 ≤ 16) × (is_atom rows.now (number_at rows.now value 1) ≡ true) × (is_atom rows.now (number_at rows.now value 2) ≡ true) }
    ensures { out.new ≡ put_line line (operation_parts (assigned target (expression_at rows.now value))) out.old }
{
    let kind = number_at(rows, value, 0);
    let a = number_at(rows, value, 1);
    let b = number_at(rows, value, 2);
    let left = atom_sort(rows, a);
    let right = atom_sort(rows, b);
    let word = word_at(rows, a, 1);
    let other = word_at(rows, b, 1);
    put_line(
        out,
        line,
        kind + (64 * left + 128 * right),
        target,
        word,
        other,
        0,
    );
}

// What is assigned to the variable, by its kind.
fn put_value(out: &mut [i32], rows: &[i32], line: usize, target: usize, value: usize)
    requires { Assigning rows.now value line target out.old × (fits_variable rows.now value ≡ true) }
    ensures { out.new ≡ put_line line (operation_parts (assigned target (expression_at rows.now value))) out.old }
{
    let kind = number_at(rows, value, 0);
    if kind < 3 {
        put_copy(out, rows, line, target, value);
        return;
    }
    if kind == 3 {
        put_fetch(out, rows, line, target, value);
        return;
    }
    if kind == 4 {
        put_minus(out, rows, line, target, value);
        return;
    }
    put_binary(out, rows, line, target, value);
}

// An atom is assigned to an element with an atom index.
fn put_store(out: &mut [i32], rows: &[i32], line: usize, assignment: usize)
    requires { KernelTable rows.now × (assignment < row_count rows.now) × (is_assignment rows.now assignment ≡ true) × (number_at rows.now (number_at rows.now assignment 1) 0 ≡ 2 → ⊥) × (5 * line + 5 ≤ length out.old) }
    ensures { out.new ≡ put_line line (operation_parts (operation_of (expression_at rows.now assignment))) out.old }
{
    let place = number_at(rows, assignment, 1);
    let value = number_at(rows, assignment, 2);
    let index = number_at(rows, place, 2);
    let left = atom_sort(rows, index);
    let right = atom_sort(rows, value);
    let array = number_at(rows, place, 1);
    let word = word_at(rows, index, 1);
    let other = word_at(rows, value, 1);
    put_line(
        out,
        line,
        21 + (64 * left + 128 * right),
        array,
        word,
        other,
        0,
    );
}

// The line of an assignment.
pub fn put_assignment(out: &mut [i32], rows: &[i32], line: usize, assignment: usize)
    requires { KernelTable rows.now × (assignment < row_count rows.now) × (is_assignment rows.now assignment ≡ true) × (5 * line + 5 ≤ length out.old) }
    ensures { out.new ≡ put_line line (operation_parts (operation_of (expression_at rows.now assignment))) out.old }
{
    let place = number_at(rows, assignment, 1);
    if number_at(rows, place, 0) == 2 {
        let target = number_at(rows, place, 1);
        put_value(out, rows, line, target, number_at(rows, assignment, 2));
        return;
    }
    put_store(out, rows, line, assignment);
}
