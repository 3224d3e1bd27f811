// The write sets of arguments: what the arguments of a call can write, joined along their list. The declared words begin at `store`.
ghost use Rattle.std.specs.Prelude.{◌+◌, ◌<◌};
ghost use Rattle.words.specs.Table.{row_count};
ghost use Rattle.language.specs.Decode.{arguments_at, argument_list_at};
ghost use Rattle.language.specs.Writes.{arguments_write};
ghost use Rattle.language_shapes.specs.Shapes.{OptionalOnward};
ghost use Rattle.language_shapes.specs.Source.{Source};
ghost use Rattle.measures_table.specs.Parts.{called_in};
ghost use Rattle.write_sets_rows.specs.WriteSets.{SetIs, SetsFrom, first_writes, NextArgument};

use super::table::set_at;
use language_shapes::rows::argument_at;
use words::table::number_at;
use write_sets::WriteSet;

// What the argument at a row writes; a row that is no argument writes nothing.
fn argument_writes(store: usize, rows: &[i32], sets: &[WriteSet], row: usize) -> WriteSet
    requires { SetsFrom store rows.now sets.now (row + 1) × (row < row_count rows.now) }
    ensures { SetIs store result (first_writes (called_in rows.now) (arguments_at rows.now row)) }
{
    let shape = argument_at(rows, row);
    match shape {
        Some(e) => set_at(sets, e),
        None => WriteSet::nothing(),
    }
}

// The row of the argument behind; 0 where there is none.
fn next_argument(rows: &[i32], row: usize) -> usize
    requires { Source rows.now × (row < row_count rows.now) }
    ensures { NextArgument rows.now row result }
{
    let next = number_at(rows, row, 5);
    let shape = argument_at(rows, row);
    match shape {
        Some(_) => next,
        None => 0,
    }
}

// What the arguments of the call at a row write.
pub fn arguments_writes(
    store: usize,
    rows: &[i32],
    sets: &[WriteSet],
    row: usize,
    first: usize,
) -> WriteSet
    requires { SetsFrom store rows.now sets.now (row + 1) × OptionalOnward rows.now row first }
    ensures { SetIs store result (arguments_write (called_in rows.now) (argument_list_at rows.now first)) }
{
    let mut any = WriteSet::nothing();
    let mut argument = first;
    while argument > 0 {
        any = any.join(argument_writes(store, rows, sets, argument));
        argument = next_argument(rows, argument);
    }
    any
}
