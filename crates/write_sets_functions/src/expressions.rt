// What the expression at a link can write, by a walk down its links; `known` functions have their sets in the table, the others are taken to
// write nothing. The declared words begin at `store`.
ghost use Rattle.std.specs.Prelude.{◌<◌};
ghost use Rattle.words.specs.Table.{row_count};
ghost use Rattle.language.specs.Decode.{part_at, argument_list_at};
ghost use Rattle.language.specs.Writes.{arguments_write};
ghost use Rattle.write_sets_rows.specs.WriteSets.{SetIs, part_writes};
ghost use Rattle.write_sets_functions.specs.Walks.{lower_called, Walks};

use language_shapes::rows::argument_at;
use words::table::number_at;
use write_sets::WriteSet;
use write_sets_rows::reaches::reach_at;

#[cycle(walk_expressions)]
pub fn walk_expression(
    store: usize,
    rows: &[i32],
    sets: &[WriteSet],
    known: usize,
    link: usize,
) -> WriteSet
    requires { Walks store rows.now sets.now known × (link < row_count rows.now) }
    ensures { SetIs store result (part_writes (lower_called rows.now known) (part_at rows.now link)) }
{
    if link == 0 {
        return WriteSet::nothing();
    }
    let reach = reach_at(store, rows, sets, known, link);
    let passed = walk_arguments(store, &*rows, &*sets, known, reach.arguments);
    let third = walk_expression(store, &*rows, &*sets, known, reach.third);
    let second = walk_expression(store, &*rows, &*sets, known, reach.second);
    let first = walk_expression(store, &*rows, &*sets, known, reach.first);
    reach.own.join(first.join(second.join(third.join(passed))))
}

// The arguments from a link on; they are at most 64.
#[cycle(walk_expressions)]
fn walk_arguments(
    store: usize,
    rows: &[i32],
    sets: &[WriteSet],
    known: usize,
    link: usize,
) -> WriteSet
    requires { Walks store rows.now sets.now known × (link < row_count rows.now) }
    ensures { SetIs store result (arguments_write (lower_called rows.now known) (argument_list_at rows.now link)) }
{
    if link == 0 {
        return WriteSet::nothing();
    }
    let next = number_at(rows, link, 5);
    let shape = argument_at(rows, link);
    match shape {
        Some(e) => {
            let first = walk_expression(store, &*rows, &*sets, known, e);
            first.join(walk_arguments(store, &*rows, &*sets, known, next))
        }
        None => WriteSet::nothing(),
    }
}
