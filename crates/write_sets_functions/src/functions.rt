// What each function can write, in order of number, each from those before it: its parameters, and what its block can. A function's set
// stands in the table at its number. The declared words begin at `store`.
ghost use Rattle.std.specs.Prelude.{◌*◌, ◌≤◌, ◌<◌, length};
ghost use Rattle.words.specs.Table.{row_count};
ghost use Rattle.language.specs.Decode.{parameter_list_at};
ghost use Rattle.language.specs.FunctionWrites.{is_among};
ghost use Rattle.language_shapes.specs.Source.{NamesFrom, Source};
ghost use Rattle.measures_table.specs.Parts.{called_in};
ghost use Rattle.write_sets_rows.specs.WriteSets.{SetIs, FunctionSets};
ghost use Rattle.write_sets_functions.specs.Walks.{Walks};
ghost use Rattle.write_sets_functions.specs.Definitions.{FunctionHere};

use super::definitions::{is_definition, is_parameter};
use super::statements::walk_list;
use words::table::number_at;
use write_sets::WriteSet;

// The words of the parameters from a link on.
fn parameter_words(store: usize, rows: &[i32], first: usize) -> WriteSet
    requires { Source rows.now × NamesFrom store rows.now × (first < row_count rows.now) }
    ensures { SetIs store result (λ i. is_among i (parameter_list_at rows.now first)) }
{
    let mut any = WriteSet::nothing();
    let mut row = first;
    while is_parameter(rows, row) {
        any = any.join(WriteSet::single(store, number_at(rows, row, 1)));
        row = number_at(rows, row, 5);
    }
    any
}

// What the function that a row defines can write, from what those before it can.
fn function_writes(
    store: usize,
    rows: &[i32],
    sets: &[WriteSet],
    known: usize,
    row: usize,
) -> WriteSet
    requires { Walks store rows.now sets.now known × FunctionHere rows.now known row }
    ensures { SetIs store result (called_in rows.now known) }
{
    let parameters = parameter_words(store, rows, number_at(rows, row, 2));
    let body = number_at(rows, row, 3);
    let list = number_at(rows, body, 1);
    parameters.join(walk_list(store, rows, sets, known, list))
}

// Puts the sets of the functions into the table.
pub fn gather_functions(store: usize, rows: &[i32], sets: &mut [WriteSet])
    requires { Source rows.now × NamesFrom store rows.now × (row_count rows.now ≤ length sets.old) }
    ensures { FunctionSets store rows.now sets.new (row_count rows.now) }
{
    let mut row = number_at(rows, 0, 1);
    let mut known: usize = 0;
    while is_definition(rows, row) {
        sets[known] = function_writes(store, rows, sets, known, row);
        known += 1;
        row = number_at(rows, row, 5);
    }
}
