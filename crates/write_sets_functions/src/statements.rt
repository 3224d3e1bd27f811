// What the statement at a link can write, by a walk down its links: statements, lists and arms call each other, as deep as the program.
ghost use Rattle.std.specs.Prelude.{◌<◌};
ghost use Rattle.words.specs.Table.{row_count};
ghost use Rattle.language.specs.Decode.{list_at, arm_list_at};
ghost use Rattle.language.specs.FunctionWrites.{items_write, arms_write};
ghost use Rattle.write_sets_rows.specs.WriteSets.{SetIs};
ghost use Rattle.write_sets_functions.specs.Walks.{lower_called, Walks};
ghost use Rattle.write_sets_functions.specs.Steps.{body_writes};

use super::expressions::walk_expression;
use super::steps::{arm_links, item_statement, step_at};
use words::table::number_at;
use write_sets::WriteSet;

#[cycle(walk_statements)]
fn walk_statement(
    store: usize,
    rows: &[i32],
    sets: &[WriteSet],
    known: usize,
    link: usize,
) -> WriteSet
    requires { Walks store rows.now sets.now known × (link < row_count rows.now) }
    ensures { SetIs store result (body_writes (lower_called rows.now known) rows.now link) }
{
    if link == 0 {
        return WriteSet::nothing();
    }
    let step = step_at(store, rows, link);
    let first = walk_expression(store, rows, sets, known, step.first);
    let second = walk_expression(store, rows, sets, known, step.second);
    let third = walk_expression(store, rows, sets, known, step.third);
    let body = walk_statement(store, &*rows, &*sets, known, step.body);
    let other = walk_statement(store, &*rows, &*sets, known, step.other);
    let list = walk_list(store, &*rows, &*sets, known, step.list);
    let arms = walk_arms(store, &*rows, &*sets, known, step.arms);
    let parts = body.join(other.join(list.join(arms)));
    step.own.join(first.join(second.join(third.join(parts))))
}

// The items from a link on.
#[cycle(walk_statements)]
pub fn walk_list(
    store: usize,
    rows: &[i32],
    sets: &[WriteSet],
    known: usize,
    first: usize,
) -> WriteSet
    requires { Walks store rows.now sets.now known × (first < row_count rows.now) }
    ensures { SetIs store result (items_write (lower_called rows.now known) (list_at rows.now first)) }
{
    let mut any = WriteSet::nothing();
    let mut row = first;
    while row > 0 {
        let own = item_statement(rows, row);
        any = any.join(walk_statement(store, &*rows, &*sets, known, own));
        row = number_at(rows, row, 5);
    }
    any
}

// The arms from a link on.
#[cycle(walk_statements)]
fn walk_arms(store: usize, rows: &[i32], sets: &[WriteSet], known: usize, first: usize) -> WriteSet
    requires { Walks store rows.now sets.now known × (first < row_count rows.now) }
    ensures { SetIs store result (arms_write (lower_called rows.now known) (arm_list_at rows.now first)) }
{
    let mut any = WriteSet::nothing();
    let mut row = first;
    while row > 0 {
        let links = arm_links(rows, row);
        let guard = walk_expression(store, rows, sets, known, links.guard);
        let body = walk_statement(store, &*rows, &*sets, known, links.body);
        any = any.join(guard.join(body));
        row = links.next;
    }
    any
}
