// The write sets of the rows: which variables and declared words the expression at a row can write, found by a pass over the rows from the
// last to the first. The declared words begin at `store`. The table holds the functions' sets by number until the rows take their places: a
// call's row is above its function's number.
ghost use Rattle.std.specs.Prelude.{◌+◌, ◌≤◌, ◌<◌, length};
ghost use Rattle.words.specs.Table.{row_count};
ghost use Rattle.language.specs.Decode.{expression_at};
ghost use Rattle.language.specs.Writes.{writes};
ghost use Rattle.language_shapes.specs.Source.{NamesFrom, Source};
ghost use Rattle.measures_table.specs.Parts.{called_in};
ghost use Rattle.write_sets_rows.specs.WriteSets.{SetIs, FunctionSets, SetsFrom, Sets};

use super::arguments::arguments_writes;
use super::reaches::reach_at;
use super::table::set_at;
use write_sets::WriteSet;

// What the expression at a row writes, from what is written at its links.
fn writes_at(store: usize, rows: &[i32], sets: &[WriteSet], row: usize) -> WriteSet
    requires { SetsFrom store rows.now sets.now (row + 1) × FunctionSets store rows.now sets.now row × (row < row_count rows.now) }
    ensures { SetIs store result (writes (called_in rows.now) (expression_at rows.now row)) }
{
    let reach = reach_at(store, rows, sets, row, row);
    let passed = arguments_writes(store, rows, sets, row, reach.arguments);
    let third = set_at(sets, reach.third).join(passed);
    let second = set_at(sets, reach.second).join(third);
    let first = set_at(sets, reach.first).join(second);
    reach.own.join(first)
}

// Fills the table of write sets, in which the functions have theirs.
pub fn fill_sets(store: usize, rows: &[i32], sets: &mut [WriteSet])
    requires { Source rows.now × NamesFrom store rows.now × (row_count rows.now ≤ length sets.old) × FunctionSets store rows.now sets.old (row_count rows.now) }
    ensures { Sets store rows.now sets.new }
{
    for row in (0..rows.len() / 6).rev() {
        sets[row] = writes_at(store, rows, sets, row);
    }
}
