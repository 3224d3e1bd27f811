// The rows of functions as a list, which a run works out once: the first function's is the last.
ghost use Rattle.std.specs.Prelude.{◌≡◌, ◌≤◌, ◌<◌, length};
ghost use Rattle.words.specs.Table.{row_count};
ghost use Rattle.language.specs.Functions.{function_count};
ghost use Rattle.language.specs.Program.{contents};
ghost use Rattle.machine_operations.specs.Bounds.{function_row_in};
ghost use Rattle.machine_flows.specs.FunctionRows.{is_defined, InOrder, RowsOfFunctions};
ghost use Rattle.machine_flows.specs.Lists.{InTable};

use machine_operations::operations::link_at;
use words::table::number_at;

// Whether a definition stands at the row; at 0 there is none.
fn is_definition(rows: &[i32], row: usize) -> bool
    requires { InTable rows.now row }
    ensures { result ≡ is_defined rows.now row }
{
    row != 0 && number_at(rows, row, 0) == 59
}

// How many functions the table defines: "definitions come first in row 0's list".
pub fn function_count(rows: &[i32]) -> usize
    requires { InOrder rows.now }
    ensures { (result ≡ function_count (contents rows.now)) × (result ≤ row_count rows.now) }
{
    let mut at = link_at(rows, 0, 1);
    let mut count: usize = 0;
    while is_definition(rows, at) {
        at = link_at(rows, at, 5);
        count += 1;
    }
    count
}

// The row of each function, from the end of the room.
pub fn fill_functions(rows: &[i32], room: &mut [usize])
    requires { InOrder rows.now × (length room.old ≡ function_count (contents rows.now)) }
    ensures { RowsOfFunctions rows.now room.new }
{
    let mut at = link_at(rows, 0, 1);
    for k in (0..room.len()).rev() {
        room[k] = at;
        at = link_at(rows, at, 5);
    }
}

// The row that defines the function with this number, in a run's list.
pub fn function_row(list: &[usize], number: usize) -> usize
    requires { number < length list.now }
    ensures { result ≡ function_row_in list.now number }
{
    let at = list.len() - 1 - number;
    list[at]
}
