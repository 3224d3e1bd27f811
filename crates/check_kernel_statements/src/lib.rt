// Cause 12: the statements of the kernel language. Each test is true where the row is what it is named after.
#![tactic(auto)]

ghost use Rattle.std.specs.Prelude.{◌≡◌, ◌+◌, ◌*◌, ◌/◌, ◌<◌, length};
ghost use Rattle.words.specs.Table.{row_count, number_at};
ghost use Rattle.words.specs.Search.{lowest_row};
ghost use Rattle.check_kernel_statements.specs.Statements.{is_atom, is_atom_minus, is_atom_operation, is_atom_element, atom_arguments, is_atom_call, fits_variable, is_assignment, is_block, is_kernel_if, is_kernel_while, is_kernel_expression, is_kernel_return, is_kernel_parameter, is_of_function, is_kernel_statement, not_kernel_form};

use check_grammar::between;
use check_grammar::kinds::KindTable;
use check_grammar::search::lowest_row;
use words::table::number_at;

// A field of any row. Beyond the table every word is 0.
pub fn number_or_zero(rows: &[i32], row: usize, field: usize) -> usize
    requires { (6 * (length rows.now / 6) ≡ length rows.now) × (field < 6) }
    ensures { result ≡ number_at rows.now row field }
{
    if row < rows.len() / 6 {
        return number_at(rows, row, field);
    }
    0
}

// A constant or variable.
fn is_atom(rows: &[i32], row: usize) -> bool
    requires { 6 * (length rows.now / 6) ≡ length rows.now }
    ensures { result ≡ is_atom rows.now row }
{
    between(1, 2, number_or_zero(rows, row, 0))
}

// Minus an atom.
fn is_atom_minus(rows: &[i32], row: usize) -> bool
    requires { 6 * (length rows.now / 6) ≡ length rows.now }
    ensures { result ≡ is_atom_minus rows.now row }
{
    if number_or_zero(rows, row, 0) == 4 {
        return is_atom(rows, number_or_zero(rows, row, 1));
    }
    false
}

// One of kinds 6 to 16 on two atoms.
fn is_atom_operation(rows: &[i32], row: usize) -> bool
    requires { 6 * (length rows.now / 6) ≡ length rows.now }
    ensures { result ≡ is_atom_operation rows.now row }
{
    if between(6, 16, number_or_zero(rows, row, 0)) {
        if is_atom(rows, number_or_zero(rows, row, 1)) {
            return is_atom(rows, number_or_zero(rows, row, 2));
        }
        return false;
    }
    false
}

// An element with an atom index.
fn is_atom_element(rows: &[i32], row: usize) -> bool
    requires { 6 * (length rows.now / 6) ≡ length rows.now }
    ensures { result ≡ is_atom_element rows.now row }
{
    if number_or_zero(rows, row, 0) == 3 {
        return is_atom(rows, number_or_zero(rows, row, 2));
    }
    false
}

// The arguments of the list that begins at a row are atoms.
fn atom_arguments(rows: &[i32], first: usize) -> bool
    requires { 6 * (length rows.now / 6) ≡ length rows.now }
    ensures { result ≡ atom_arguments (row_count rows.now) rows.now first }
{
    let mut argument = first;
    for _passed in 0..rows.len() / 6 {
        if argument == 0 {
            return true;
        }
        if !is_atom(rows, number_or_zero(rows, argument, 1)) {
            return false;
        }
        argument = number_or_zero(rows, argument, 5);
    }
    true
}

// A call on atoms.
fn is_atom_call(rows: &[i32], row: usize) -> bool
    requires { 6 * (length rows.now / 6) ≡ length rows.now }
    ensures { result ≡ is_atom_call rows.now row }
{
    if number_or_zero(rows, row, 0) == 31 {
        return atom_arguments(rows, number_or_zero(rows, row, 2));
    }
    false
}

// What may be assigned to a variable.
fn fits_variable(rows: &[i32], row: usize) -> bool
    requires { 6 * (length rows.now / 6) ≡ length rows.now }
    ensures { result ≡ fits_variable rows.now row }
{
    if is_atom(rows, row) {
        return true;
    }
    if is_atom_minus(rows, row) {
        return true;
    }
    if is_atom_operation(rows, row) {
        return true;
    }
    if is_atom_element(rows, row) {
        return true;
    }
    is_atom_call(rows, row)
}

// An assignment of kernel form.
fn is_assignment(rows: &[i32], row: usize) -> bool
    requires { 6 * (length rows.now / 6) ≡ length rows.now }
    ensures { result ≡ is_assignment rows.now row }
{
    if number_or_zero(rows, row, 0) != 21 {
        return false;
    }
    let target = number_or_zero(rows, row, 1);
    let value = number_or_zero(rows, row, 2);
    if number_or_zero(rows, target, 0) == 2 {
        return fits_variable(rows, value);
    }
    if is_atom_element(rows, target) {
        return is_atom(rows, value);
    }
    false
}

// A branch or body that is a block.
fn is_block(rows: &[i32], row: usize) -> bool
    requires { 6 * (length rows.now / 6) ≡ length rows.now }
    ensures { result ≡ is_block rows.now row }
{
    if row == 0 {
        return false;
    }
    number_or_zero(rows, row, 0) == 42
}

// An if with an atom and two blocks.
fn is_kernel_if(rows: &[i32], row: usize) -> bool
    requires { 6 * (length rows.now / 6) ≡ length rows.now }
    ensures { result ≡ is_kernel_if rows.now row }
{
    if number_or_zero(rows, row, 0) != 43 {
        return false;
    }
    if is_atom(rows, number_or_zero(rows, row, 1)) {
        if is_block(rows, number_or_zero(rows, row, 2)) {
            return is_block(rows, number_or_zero(rows, row, 3));
        }
        return false;
    }
    false
}

// A while with an atom and a block.
fn is_kernel_while(rows: &[i32], row: usize) -> bool
    requires { 6 * (length rows.now / 6) ≡ length rows.now }
    ensures { result ≡ is_kernel_while rows.now row }
{
    if number_or_zero(rows, row, 0) != 44 {
        return false;
    }
    if is_atom(rows, number_or_zero(rows, row, 1)) {
        return is_block(rows, number_or_zero(rows, row, 2));
    }
    false
}

// An expression statement that assigns.
fn is_kernel_expression(rows: &[i32], row: usize) -> bool
    requires { 6 * (length rows.now / 6) ≡ length rows.now }
    ensures { result ≡ is_kernel_expression rows.now row }
{
    if number_or_zero(rows, row, 0) == 41 {
        return is_assignment(rows, number_or_zero(rows, row, 1));
    }
    false
}

// A return of an atom.
fn is_kernel_return(rows: &[i32], row: usize) -> bool
    requires { 6 * (length rows.now / 6) ≡ length rows.now }
    ensures { result ≡ is_kernel_return rows.now row }
{
    if number_or_zero(rows, row, 0) == 60 {
        let atom = number_or_zero(rows, row, 1);
        if atom == 0 {
            return false;
        }
        return is_atom(rows, atom);
    }
    false
}

// A parameter, which has no b.
fn is_kernel_parameter(rows: &[i32], row: usize) -> bool
    requires { 6 * (length rows.now / 6) ≡ length rows.now }
    ensures { result ≡ is_kernel_parameter rows.now row }
{
    if number_or_zero(rows, row, 0) == 58 {
        return number_or_zero(rows, row, 2) == 0;
    }
    false
}

// A definition, a return of an atom or a parameter.
fn is_of_function(rows: &[i32], row: usize) -> bool
    requires { 6 * (length rows.now / 6) ≡ length rows.now }
    ensures { result ≡ is_of_function rows.now row }
{
    if number_or_zero(rows, row, 0) == 59 {
        return true;
    }
    if is_kernel_return(rows, row) {
        return true;
    }
    is_kernel_parameter(rows, row)
}

// A statement of the kernel language.
fn is_kernel_statement(rows: &[i32], row: usize) -> bool
    requires { 6 * (length rows.now / 6) ≡ length rows.now }
    ensures { result ≡ is_kernel_statement rows.now row }
{
    let kind = number_or_zero(rows, row, 0);
    if kind == 40 {
        return true;
    }
    if kind == 42 {
        return true;
    }
    if is_kernel_if(rows, row) {
        return true;
    }
    if is_kernel_while(rows, row) {
        return true;
    }
    if kind == 52 {
        return true;
    }
    if kind == 53 {
        return true;
    }
    if kind == 57 {
        return true;
    }
    if is_kernel_expression(rows, row) {
        return true;
    }
    is_of_function(rows, row)
}

// Cause 12 at a row.
fn is_not_kernel_form(kinds: &KindTable, rows: &[i32], row: usize) -> bool
    requires { (6 * (length rows.now / 6) ≡ length rows.now) × (6 * row < length rows.now) }
    ensures { result ≡ not_kernel_form rows.now row }
{
    if kinds.is_statement(rows, row) {
        return !is_kernel_statement(rows, row);
    }
    false
}

// The lowest row that is a statement not of kernel form.
fn lowest_not_kernel_form_by(kinds: &KindTable, rows: &[i32]) -> Option<usize>
    requires { 6 * (length rows.now / 6) ≡ length rows.now }
    ensures { result ≡ lowest_row rows.now (not_kernel_form rows.now) }
{
    lowest_row(rows, |row| is_not_kernel_form(kinds, rows, row))
}

// The same, with the table of kinds: it is built here, once, and lent on.
pub fn lowest_not_kernel_form(rows: &[i32]) -> Option<usize>
    requires { 6 * (length rows.now / 6) ≡ length rows.now }
    ensures { result ≡ lowest_row rows.now (not_kernel_form rows.now) }
{
    let kinds = KindTable::new();
    lowest_not_kernel_form_by(&kinds, rows)
}
