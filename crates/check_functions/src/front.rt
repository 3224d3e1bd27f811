// The definitions at the front: the row of each, at its number.
ghost use Rattle.std.specs.Prelude.{◌≡◌, false, ◌*◌, ◌<◌, length};
ghost use Rattle.check_structure.specs.Structured.{Tree};
ghost use Rattle.check_structure.specs.Passes.{Notes};
ghost use Rattle.check_function_causes.specs.Functions.{is_definition, function_at};
ghost use Rattle.check_functions.specs.Passes.{Blank};

use check_grammar::kinds::KindTable;
use check_structure::row_number::{narrow, wide};
use words_roles::is_definition;

// The definition of each number: a walk along row 0's list, while it has definitions.
pub fn write_functions(kinds: &KindTable, rows: &[i32], functions: &mut [u16])
    requires { Tree rows.now × (is_definition rows.now 0 ≡ false) × Blank rows.now functions.old }
    ensures { Notes rows.now (function_at rows.now) functions.new }
{
    let mut row = kinds.link(rows, 0, 1);
    let mut number: usize = 0;
    while is_definition(rows, row) {
        functions[number] = narrow(row);
        number += 1;
        row = kinds.link(rows, row, 5);
    }
}

// The definition that a number means; 0 where there is none.
pub fn function_of(rows: &[i32], functions: &[u16], number: usize) -> usize
    requires { Tree rows.now × (is_definition rows.now 0 ≡ false) × Notes rows.now (function_at rows.now) functions.now }
    ensures { result ≡ function_at rows.now number }
{
    if number < rows.len() / 6 {
        return wide(functions[number]);
    }
    0
}
