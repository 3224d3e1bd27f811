// The causes that functions add to the checks of both forms, in code: 23 and 24 in order, and 7 for a return.
#![tactic(auto)]

use breaks::lowest_breaking;
use check_grammar::kinds::KindTable;
use check_notes::{Note, write_notes};
use check_structure::causes::at;
use front::write_functions;
use words::table::number_at;
use words::{Cause, Refusal};

pub mod breaks; // breaks.rt: the lowest row that breaks a cause
pub mod calls; // calls.rt: cause 24, what is wrong with a call
pub mod front; // front.rt: the definitions at the front, by their numbers

ghost use Rattle.std.specs.Prelude.{◌≡◌, false, ◌*◌, ◌/◌, ◌<◌, ◌≤◌, length};
ghost use Rattle.words.specs.Search.{lowest_row};
ghost use Rattle.check_structure.specs.Structured.{Tree};
ghost use Rattle.check_function_causes.specs.Functions.{is_definition, is_of_functions, has_functions};
ghost use Rattle.check_function_causes.specs.Causes.{returns_outside, function_refusal};
ghost use Rattle.check_functions.specs.Passes.{Blank, Known};

// What a row of a function can break.
#[derive(Clone, Copy)]
pub enum FunctionFault {
    // 7
    ReturnsOutside,
    // 23
    OutOfOrder,
    // 24
    WrongCall,
}

// A row that defines, calls or returns.
fn is_of_functions(rows: &[i32], row: usize) -> bool
    requires { 6 * row < length rows.now }
    ensures { result ≡ is_of_functions rows.now row }
{
    let kind = number_at(rows, row, 0);
    if kind == 59 {
        return true;
    }
    if kind == 31 {
        return true;
    }
    kind == 60
}

// Some row defines, calls or returns. Most tables have none, and cost no pass along the links.
pub fn has_functions(rows: &[i32]) -> bool
    ensures { result ≡ has_functions rows.now }
{
    for row in 0..rows.len() / 6 {
        if is_of_functions(rows, row) {
            return true;
        }
    }
    false
}

// Where each row stands, and the definition of each number.
fn write_known(kinds: &KindTable, rows: &[i32], around: &mut [u16], functions: &mut [u16])
    requires { Tree rows.now × (is_definition rows.now 0 ≡ false) × Blank rows.now around.old × Blank rows.now functions.old }
    ensures { Known rows.now around.new functions.new }
{
    write_notes(Note::Around(59), kinds, rows, around);
    write_functions(kinds, rows, functions);
}

// Cause 7 for returns, in a tree of rows, with room for what is known of its rows.
pub fn lowest_outside_function(
    kinds: &KindTable,
    rows: &[i32],
    around: &mut [u16],
    functions: &mut [u16],
) -> Option<usize>
    requires { Tree rows.now × (is_definition rows.now 0 ≡ false) × Blank rows.now around.old × Blank rows.now functions.old }
    ensures { result ≡ lowest_row rows.now (returns_outside rows.now) }
{
    write_known(kinds, rows, around, functions);
    lowest_breaking(
        FunctionFault::ReturnsOutside,
        kinds,
        rows,
        around,
        functions,
    )
}

// Causes 23 and 24, with what is known of the rows.
fn known_refusal(
    kinds: &KindTable,
    rows: &[i32],
    around: &[u16],
    functions: &[u16],
) -> Result<(), Refusal>
    requires { Tree rows.now × (is_definition rows.now 0 ≡ false) × Known rows.now around.now functions.now }
    ensures { result ≡ function_refusal rows.now }
{
    let disordered = lowest_breaking(FunctionFault::OutOfOrder, kinds, rows, around, functions);
    at(Cause::FunctionOrder, disordered)?;
    at(
        Cause::WrongCall,
        lowest_breaking(FunctionFault::WrongCall, kinds, rows, around, functions),
    )
}

// Causes 23 and 24, in a tree of rows, with room for what is known of its rows.
pub fn function_refusal(
    kinds: &KindTable,
    rows: &[i32],
    around: &mut [u16],
    functions: &mut [u16],
) -> Result<(), Refusal>
    requires { Tree rows.now × (is_definition rows.now 0 ≡ false) × Blank rows.now around.old × Blank rows.now functions.old }
    ensures { result ≡ function_refusal rows.now }
{
    write_known(kinds, rows, around, functions);
    known_refusal(kinds, rows, around, functions)
}
