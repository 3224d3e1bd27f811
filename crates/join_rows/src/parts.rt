// The two parts of a program's rows: those of its definitions, and the others. How many of its part come before each row, in one pass; and a walk
// along the definitions at the front.
ghost use Rattle.std.specs.Prelude.{◌≡◌, false, ◌+◌, ◌-◌, ◌/◌, ◌<◌, ◌≤◌, length};
ghost use Rattle.words.specs.Word.{pick};
ghost use Rattle.check_structure.specs.Structured.{Tree};
ghost use Rattle.check_structure.specs.Passes.{Notes};
ghost use Rattle.check_function_causes.specs.Functions.{is_definition, function_around};
ghost use Rattle.join.specs.Join.{is_of_definition, definition_rows, functions_of, first_item};
ghost use Rattle.join_rows.specs.Standings.{rank_of, Noted};

use super::Front;
use check_grammar::kinds::KindTable;
use check_structure::row_number::narrow;
use words_roles::is_definition;

// A program's rows, with the function that each stands in and how many rows of its part come before it; and how many are rows of definitions.
#[derive(Clone, Copy)]
pub struct NotedRows<'a> {
    pub rows: &'a [i32],
    pub around: &'a [u16],
    pub ranks: &'a [u16],
    pub definitions: usize,
    ghost noted: { Noted rows.now around.now ranks.now definitions },
}

// A row of a definition: its own, or one that stands in a function.
pub fn is_of_definition(rows: &[i32], around: &[u16], row: usize) -> bool
    requires { Tree rows.now × (row < length rows.now / 6) × Notes rows.now (function_around rows.now) around.now }
    ensures { result ≡ is_of_definition rows.now row }
{
    if is_definition(rows, row) {
        return true;
    }
    around[row] != 0
}

// A row's place in its part, with the number of rows of definitions before it.
fn rank(of_definition: bool, definitions: usize, row: usize) -> u16
    requires { (definitions ≤ row) × (row < 65536) }
    ensures { result ≡ pick of_definition definitions (row - definitions) }
{
    if of_definition {
        return narrow(definitions);
    }
    narrow(row - definitions)
}

// Writes how many rows of its part come before each row; how many are rows of definitions.
pub fn write_ranks(rows: &[i32], around: &[u16], ranks: &mut [u16]) -> usize
    requires { Tree rows.now × Notes rows.now (function_around rows.now) around.now × (length rows.now / 6 ≤ length ranks.old) }
    ensures { (result ≡ definition_rows rows.now) × Notes rows.now (rank_of rows.now) ranks.new }
{
    let mut definitions = 0;
    for row in 0..rows.len() / 6 {
        let of_definition = is_of_definition(rows, around, row);
        ranks[row] = rank(of_definition, definitions, row);
        definitions += usize::from(of_definition);
    }
    definitions
}

// The definitions at the front: a walk along row 0's list, while it has definitions.
pub fn front_of(kinds: &KindTable, rows: &[i32]) -> Front
    requires { Tree rows.now × (is_definition rows.now 0 ≡ false) }
    ensures { (result.functions ≡ functions_of rows.now) × (result.item ≡ first_item rows.now) × (result.item < length rows.now / 6) × (result.functions < length rows.now / 6) }
{
    let mut item = kinds.link(rows, 0, 1);
    let mut functions = 0;
    while is_definition(rows, item) {
        functions += 1;
        item = kinds.link(rows, item, 5);
    }
    Front { functions, item }
}
