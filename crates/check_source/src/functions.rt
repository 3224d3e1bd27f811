// The causes of functions in a source program, with room for what is known of its rows.
ghost use Rattle.std.specs.Prelude.{◌≡◌, false, ◌/◌, ◌≤◌, length};
ghost use Rattle.words.specs.Search.{lowest_row};
ghost use Rattle.check_structure.specs.Structured.{Tree};
ghost use Rattle.check_function_causes.specs.Functions.{is_definition};
ghost use Rattle.check_function_causes.specs.Causes.{returns_outside, function_refusal};

use check_functions::{function_refusal, has_functions, lowest_outside_function};
use check_grammar::kinds::KindTable;
use words::Refusal;

// Cause 7 for returns.
fn lowest_returned_outside(kinds: &KindTable, rows: &[i32]) -> Option<usize>
    requires { Tree rows.now × (is_definition rows.now 0 ≡ false) × (length rows.now / 6 ≤ 2048) }
    ensures { result ≡ lowest_row rows.now (returns_outside rows.now) }
{
    let mut around = [0u16; 2048];
    let mut functions = [0u16; 2048];
    lowest_outside_function(kinds, rows, &mut around, &mut functions)
}

// The same; a table without functions costs no pass along the links.
pub fn lowest_return_outside(kinds: &KindTable, rows: &[i32]) -> Option<usize>
    requires { Tree rows.now × (is_definition rows.now 0 ≡ false) × (length rows.now / 6 ≤ 2048) }
    ensures { result ≡ lowest_row rows.now (returns_outside rows.now) }
{
    if has_functions(rows) {
        return lowest_returned_outside(kinds, rows);
    }
    None
}

// Causes 23 and 24.
fn called_refusal(kinds: &KindTable, rows: &[i32]) -> Result<(), Refusal>
    requires { Tree rows.now × (is_definition rows.now 0 ≡ false) × (length rows.now / 6 ≤ 2048) }
    ensures { result ≡ function_refusal rows.now }
{
    let mut around = [0u16; 2048];
    let mut functions = [0u16; 2048];
    function_refusal(kinds, rows, &mut around, &mut functions)
}

// The same; a table without functions costs no pass along the links.
pub fn functions_refusal(kinds: &KindTable, rows: &[i32]) -> Result<(), Refusal>
    requires { Tree rows.now × (is_definition rows.now 0 ≡ false) × (length rows.now / 6 ≤ 2048) }
    ensures { result ≡ function_refusal rows.now }
{
    if has_functions(rows) {
        return called_refusal(kinds, rows);
    }
    Ok(())
}
