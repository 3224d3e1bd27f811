// The lowest row that breaks a cause, with what the cause looks up of each row.
ghost use Rattle.std.specs.Prelude.{◌≡◌, false, ◌/◌, ◌<◌, length};
ghost use Rattle.words.specs.Search.{lowest_row};
ghost use Rattle.check_structure.specs.Structured.{Tree};
ghost use Rattle.check_function_causes.specs.Functions.{is_definition};
ghost use Rattle.check_function_causes.specs.Causes.{returns_outside, out_of_order, wrong_call};
ghost use Rattle.check_functions.specs.Passes.{breaks, Known};

use super::FunctionFault;
use super::calls::is_wrong_call;
use super::front::function_of;
use check_grammar::kinds::KindTable;
use check_grammar::search::lowest_row;
use check_structure::row_number::wide;
use words::table::number_at;
use words_roles::is_definition;

// Cause 7: a return outside a function.
fn returns_outside(rows: &[i32], around: &[u16], functions: &[u16], row: usize) -> bool
    requires { (row < length rows.now / 6) × Known rows.now around.now functions.now }
    ensures { result ≡ returns_outside rows.now row }
{
    if number_at(rows, row, 0) == 60 {
        return around[row] == 0;
    }
    false
}

// Cause 23: a definition that is not the one with its number.
fn is_out_of_order(rows: &[i32], around: &[u16], functions: &[u16], row: usize) -> bool
    requires { Tree rows.now × (is_definition rows.now 0 ≡ false) × (row < length rows.now / 6) × Known rows.now around.now functions.now }
    ensures { result ≡ out_of_order rows.now row }
{
    if is_definition(rows, row) {
        return function_of(rows, functions, number_at(rows, row, 1)) != row;
    }
    false
}

// Cause 24.
fn calls_wrongly(
    kinds: &KindTable,
    rows: &[i32],
    around: &[u16],
    functions: &[u16],
    row: usize,
) -> bool
    requires { Tree rows.now × (is_definition rows.now 0 ≡ false) × (row < length rows.now / 6) × Known rows.now around.now functions.now }
    ensures { result ≡ wrong_call rows.now row }
{
    if number_at(rows, row, 0) == 31 {
        let definition = function_of(rows, functions, number_at(rows, row, 1));
        return is_wrong_call(kinds, rows, definition, wide(around[row]), row);
    }
    false
}

// A row breaks the cause.
fn row_breaks(
    cause: FunctionFault,
    kinds: &KindTable,
    rows: &[i32],
    around: &[u16],
    functions: &[u16],
    row: usize,
) -> bool
    requires { Tree rows.now × (is_definition rows.now 0 ≡ false) × (row < length rows.now / 6) × Known rows.now around.now functions.now }
    ensures { result ≡ breaks cause rows.now row }
{
    match cause {
        FunctionFault::ReturnsOutside => returns_outside(rows, around, functions, row),
        FunctionFault::OutOfOrder => is_out_of_order(rows, around, functions, row),
        FunctionFault::WrongCall => calls_wrongly(kinds, rows, around, functions, row),
    }
}

// The lowest row that does.
pub fn lowest_breaking(
    cause: FunctionFault,
    kinds: &KindTable,
    rows: &[i32],
    around: &[u16],
    functions: &[u16],
) -> Option<usize>
    requires { Tree rows.now × (is_definition rows.now 0 ≡ false) × Known rows.now around.now functions.now }
    ensures { result ≡ lowest_row rows.now (breaks cause rows.now) }
{
    lowest_row(
        rows,
        |row| row_breaks(cause, kinds, rows, around, functions, row),
    )
}
