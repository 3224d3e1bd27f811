// Cause 24: a call to no function, to its own or a higher one, or with the wrong number of arguments.
ghost use Rattle.std.specs.Prelude.{◌≡◌, ◌/◌, ◌<◌, eqb, length};
ghost use Rattle.check_structure.specs.Structured.{Tree};
ghost use Rattle.check_function_causes.specs.Functions.{list_length};
ghost use Rattle.check_function_causes.specs.Causes.{not_lower, wrong_count, wrong_call_of};

use check_grammar::kinds::KindTable;
use words::table::number_at;

// Two lists have as many rows. Both are gone through together, so that no call costs more than its arguments.
fn same_length(kinds: &KindTable, rows: &[i32], one: usize, other: usize) -> bool
    requires { Tree rows.now × (one < length rows.now / 6) × (other < length rows.now / 6) }
    ensures { result ≡ eqb (list_length rows.now one) (list_length rows.now other) }
{
    let mut row = one;
    let mut beside = other;
    loop {
        if row == 0 {
            return beside == 0;
        }
        if beside == 0 {
            return false;
        }
        row = kinds.link(rows, row, 5);
        beside = kinds.link(rows, beside, 5);
    }
}

// In the function that a row defines, a call of this number; row 0 defines none.
fn is_not_lower(rows: &[i32], around: usize, number: usize) -> bool
    requires { around < length rows.now / 6 }
    ensures { result ≡ not_lower rows.now around number }
{
    if around == 0 {
        return false;
    }
    number_at(rows, around, 1) <= number
}

// Not as many arguments as the definition has parameters.
fn is_wrong_count(kinds: &KindTable, rows: &[i32], definition: usize, row: usize) -> bool
    requires { Tree rows.now × (definition < length rows.now / 6) × (row < length rows.now / 6) }
    ensures { result ≡ wrong_count rows.now definition row }
{
    let arguments = kinds.link(rows, row, 2);
    let parameters = kinds.link(rows, definition, 2);
    !same_length(kinds, rows, arguments, parameters)
}

// A call with the definition that it means, and with that of the function that it stands in; 0 where there is none.
pub fn is_wrong_call(
    kinds: &KindTable,
    rows: &[i32],
    definition: usize,
    around: usize,
    row: usize,
) -> bool
    requires { Tree rows.now × (definition < length rows.now / 6) × (around < length rows.now / 6) × (row < length rows.now / 6) }
    ensures { result ≡ wrong_call_of rows.now definition around row }
{
    if definition == 0 {
        return true;
    }
    if is_not_lower(rows, around, number_at(rows, row, 1)) {
        return true;
    }
    is_wrong_count(kinds, rows, definition, row)
}
