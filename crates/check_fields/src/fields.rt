// The causes that lie in one field of a row: 3, 4 and 6. Each test is true where the field breaks the cause.
ghost use Rattle.std.specs.Prelude.{◌≡◌, true, ◌+◌, ◌*◌, ◌<◌, eqb, length};
ghost use Rattle.words.specs.Word.{pick};
ghost use Rattle.words.specs.Layout.{header_fits};
ghost use Rattle.words.specs.Kinds.{body_block};
ghost use Rattle.words.specs.Links.{is_statement, is_block, fits_part, fits as fits_of};
ghost use Rattle.words_roles.specs.Roles.{parameter_sort, role_sort};
ghost use Rattle.words_roles.specs.Passes.{Parameters};
ghost use Rattle.check_fields.specs.Fields.{foreign, leads_right, mislinked, declared_range, bounds_of, variable_fits, declared_fits, number_fits, outside};

use super::{Bounds, NumberRange};
use check_grammar::kinds::KindTable;
use check_grammar::{
    ABSENT, ARGUMENT, ARM, ARRAY, BODY_BLOCK, DECLARED, ITEM, LABEL, NONE, OPERAND, OPTIONAL,
    PARAMETER, PLACE, STATEMENT, VARIABLE, is_block, is_link, is_required,
};
use words::Form;
use words::declarations::is_declaration;
use words::layout::{declared, header_store, leading, store_size};
use words::table::{natural, number_at};

// Cause 3.
pub fn is_foreign(kinds: &KindTable, form: Form, rows: &[i32], row: usize, field: usize) -> bool
    requires { (6 * row + 5 < length rows.now) × (field < 6) }
    ensures { result ≡ foreign form rows.now row field }
{
    let number = number_at(rows, row, field);
    if field == 0 {
        return !kinds.in_language(form, number);
    }
    if number == 0 {
        return false;
    }
    kinds.sort_at(rows, row, field) == NONE
}

// What a branch or body may be: a statement, or a block where the sort asks for one.
fn is_body(kinds: &KindTable, rows: &[i32], sort: u8, row: usize) -> bool
    requires { 6 * row < length rows.now }
    ensures { result ≡ pick (eqb sort body_block) (is_block rows.now row) (is_statement rows.now row) }
{
    if sort == BODY_BLOCK {
        return is_block(rows, row);
    }
    kinds.is_statement(rows, row)
}

// The row is of the sort that a link to a member, a branch or a body asks for.
fn fits_part(kinds: &KindTable, rows: &[i32], sort: u8, row: usize) -> bool
    requires { 6 * row + 5 < length rows.now }
    ensures { result ≡ fits_part rows.now sort row }
{
    if sort == ARM {
        return kinds.is_arm(rows, row);
    }
    if sort == ARGUMENT {
        return kinds.is_argument(rows, row);
    }
    if sort == PARAMETER {
        return is_declaration(rows, row);
    }
    if sort == ABSENT {
        return false;
    }
    if is_body(kinds, rows, sort, row) {
        return number_at(rows, row, 5) == 0;
    }
    false
}

// The row is of the sort that a link asks for.
fn fits(kinds: &KindTable, rows: &[i32], sort: u8, row: usize) -> bool
    requires { 6 * row + 5 < length rows.now }
    ensures { result ≡ fits_of rows.now sort row }
{
    if sort == OPERAND {
        return kinds.is_expression(rows, row);
    }
    if sort == OPTIONAL {
        return kinds.is_expression(rows, row);
    }
    if sort == PLACE {
        return kinds.is_place(rows, row);
    }
    if sort == ITEM {
        return kinds.is_statement(rows, row);
    }
    fits_part(kinds, rows, sort, row)
}

fn leads_right(kinds: &KindTable, rows: &[i32], row: usize, sort: u8, link: usize) -> bool
    ensures { result ≡ leads_right rows.now row sort link }
{
    if row < link {
        if link < rows.len() / 6 {
            return fits(kinds, rows, sort, link);
        }
        return false;
    }
    false
}

// What the fields of a parameter hold.
const PARAMETER_FIELDS: [u8; 6] = [STATEMENT, DECLARED, ABSENT, NONE, NONE, PARAMETER];

fn parameter_sort(field: usize) -> u8
    requires { field < 6 }
    ensures { result ≡ parameter_sort field }
{
    PARAMETER_FIELDS[field]
}

// What a field of a row holds, by the row's role. `parameters` marks the parameters.
fn role_sort(kinds: &KindTable, rows: &[i32], parameters: &[u8], row: usize, field: usize) -> u8
    requires { (6 * row + 5 < length rows.now) × (field < 6) × Parameters rows.now parameters.now }
    ensures { result ≡ role_sort rows.now row field }
{
    if parameters[row] == 1 {
        return parameter_sort(field);
    }
    kinds.sort_at(rows, row, field)
}

// Cause 4.
pub fn is_mislinked(
    kinds: &KindTable,
    rows: &[i32],
    parameters: &[u8],
    row: usize,
    field: usize,
) -> bool
    requires { (6 * row + 5 < length rows.now) × (field < 6) × Parameters rows.now parameters.now }
    ensures { result ≡ mislinked rows.now row field }
{
    let sort = role_sort(kinds, rows, parameters, row, field);
    if is_link(sort) {
        let link = number_at(rows, row, field);
        if link == 0 {
            return is_required(sort);
        }
        return !leads_right(kinds, rows, row, sort, link);
    }
    false
}

// The numbers that a header gives to declarations and parameters.
fn declared_range(form: Form, header: &[i32]) -> NumberRange
    requires { header_fits form header.now ≡ true }
    ensures { result ≡ declared_range form header.now }
{
    match form {
        Form::Source => NumberRange {
            first: 0,
            past: natural(header[0]),
        },
        Form::Kernel => {
            let store = store_size(form, header);
            let past = store + declared(form, header);
            NumberRange {
                first: store,
                past: past,
            }
        }
    }
}

// The numbers that a header gives.
pub fn bounds_of(form: Form, header: &[i32]) -> Bounds
    requires { header_fits form header.now ≡ true }
    ensures { result ≡ bounds_of form header.now }
{
    let variables = natural(header[0]);
    let arrays = header.len() - leading(form);
    let store = store_size(form, header);
    let words = header_store(form, header);
    let declared = declared_range(form, header);
    Bounds {
        variables: variables,
        arrays: arrays,
        store: store,
        words: words,
        declared: declared,
    }
}

fn variable_fits(bounds: Bounds, number: usize) -> bool
    ensures { result ≡ variable_fits bounds number }
{
    if number < bounds.variables {
        return true;
    }
    if bounds.store <= number {
        return number < bounds.words;
    }
    false
}

fn declared_fits(bounds: Bounds, number: usize) -> bool
    ensures { result ≡ declared_fits bounds number }
{
    let declared = bounds.declared;
    if declared.first <= number {
        return number < declared.past;
    }
    false
}

pub fn number_fits(bounds: Bounds, sort: u8, number: usize) -> bool
    ensures { result ≡ number_fits bounds sort number }
{
    if sort == VARIABLE {
        return variable_fits(bounds, number);
    }
    if sort == DECLARED {
        return declared_fits(bounds, number);
    }
    if sort == ARRAY {
        return number < bounds.arrays;
    }
    if sort == LABEL {
        return number < 40980;
    }
    true
}

// Cause 6.
pub fn is_outside(kinds: &KindTable, bounds: Bounds, rows: &[i32], row: usize, field: usize) -> bool
    requires { (6 * row + 5 < length rows.now) × (field < 6) }
    ensures { result ≡ outside bounds rows.now row field }
{
    !number_fits(
        bounds,
        kinds.sort_at(rows, row, field),
        number_at(rows, row, field),
    )
}
