// Statements and lists: `exec` enters the row of a statement, and `perform` hands it to the function of its kind; `list` runs items.
ghost use Rattle.std.specs.Prelude.{◌≡◌, length};
ghost use Rattle.words.specs.declared.Kind.TheVariants.{OfStatement};
ghost use Rattle.words.specs.declared.StatementKind.TheVariants.{Express, If, Switch};
ghost use Rattle.computation.specs.Remaining.{spend};
ghost use Rattle.machine_operations.specs.Ready.{Ready, Entered};
ghost use Rattle.machine_flows.specs.Flows.{ran};
ghost use Rattle.machine_executor.specs.Rows.{perform_at, exec_at, item_at, items_from};

use super::expressions::{compute, eval};
use super::loops::{guarded, part, rounds};
use arithmetic::is_true;
use machine_flows::flows::{after_expression, after_initial, after_switch, after_value, jump};
use machine_flows::lists::{find_start, resume};
use machine_flows::{BREAK, CONTINUE, NEXT};
use machine_operations::answers::operand;
use machine_operations::operations::link_at;
use machine_operations::{GUARD, SPENT};
use words::table::{number_at, word_at};

// An expression statement's row, entered: its expression, which is seldom a constant or a variable.
#[cycle(run)]
fn express(rows: &[i32], bounds: &[usize], row: usize, store: &mut [i32], left: &mut u32) -> i64
    requires { Entered rows.now bounds.now (length store.old) row (OfStatement Express) }
    ensures { ran result left.new store.new ≡ spend (perform_at rows.now bounds.now row) left.old store.old }
{
    let n = *left;
    if n == 0 {
        return SPENT;
    }
    *left = n - 1;
    after_expression(compute(&*rows, &*bounds, link_at(rows, row, 1), store, left))
}

// The statement at a row.
#[cycle(run)]
pub fn exec(rows: &[i32], bounds: &[usize], row: usize, store: &mut [i32], left: &mut u32) -> i64
    requires { Ready rows.now bounds.now (length store.old) row }
    ensures { ran result left.new store.new ≡ spend (exec_at rows.now bounds.now row) left.old store.old }
{
    let n = *left;
    if n == 0 {
        return SPENT;
    }
    *left = n - 1;
    entry(&*rows, &*bounds, row, store, left)
}

// The item of a list at a row: a definition is passed over, "uncounted"; else the statement there.
#[cycle(run)]
fn item(rows: &[i32], bounds: &[usize], row: usize, store: &mut [i32], left: &mut u32) -> i64
    requires { Ready rows.now bounds.now (length store.old) row }
    ensures { ran result left.new store.new ≡ spend (item_at rows.now bounds.now row) left.old store.old }
{
    let number = number_at(rows, row, 0);
    if number == 59 {
        return NEXT;
    }
    let n = *left;
    if n == 0 {
        return SPENT;
    }
    *left = n - 1;
    entry(&*rows, &*bounds, row, store, left)
}

// A row that was entered: the list of a block, or what `perform` does. It has two callers and is the one caller of `perform`, which is built into
// it with both of its own: so a block among the items of a list takes one frame, of 144 bytes, and `rounds`, with `turn`, another.
#[cycle(run)]
fn entry(rows: &[i32], bounds: &[usize], row: usize, store: &mut [i32], left: &mut u32) -> i64
    requires { Ready rows.now bounds.now (length store.old) row }
    ensures { ran result left.new store.new ≡ spend (perform_at rows.now bounds.now row) left.old store.old }
{
    let number = number_at(rows, row, 0);
    if number == 42 {
        return list(&*rows, &*bounds, link_at(rows, row, 1), store, left);
    }
    perform(&*rows, &*bounds, row, store, left)
}

// A row that was entered: what follows, by the number of its kind, as in `compute`; of a for its start, then its rounds. A row that is no
// statement does nothing.
#[cycle(run)]
fn perform(rows: &[i32], bounds: &[usize], row: usize, store: &mut [i32], left: &mut u32) -> i64
    requires { Ready rows.now bounds.now (length store.old) row }
    ensures { ran result left.new store.new ≡ spend (perform_at rows.now bounds.now row) left.old store.old }
{
    let number = number_at(rows, row, 0);
    match number {
        40 => NEXT,
        41 => express(&*rows, &*bounds, row, store, left),
        42 => list(&*rows, &*bounds, link_at(rows, row, 1), store, left),
        43 => branch(&*rows, &*bounds, row, store, left),
        44 => rounds(
            &*rows,
            &*bounds,
            link_at(rows, row, 1),
            link_at(rows, row, 2),
            0,
            false,
            store,
            left,
        ),
        45 => rounds(
            &*rows,
            &*bounds,
            0,
            link_at(rows, row, 1),
            link_at(rows, row, 2),
            true,
            store,
            left,
        ),
        46 => {
            let answer = part(&*rows, &*bounds, link_at(rows, row, 1), 0, store, left);
            let Some(_) = operand(answer) else {
                return answer;
            };
            rounds(
                &*rows,
                &*bounds,
                link_at(rows, row, 2),
                link_at(rows, row, 4),
                link_at(rows, row, 3),
                false,
                store,
                left,
            )
        }
        47 => switch(&*rows, &*bounds, row, store, left),
        50 => BREAK,
        51 => CONTINUE,
        52 => jump(word_at(rows, row, 1)),
        57 => GUARD,
        58 => after_initial(
            eval(&*rows, &*bounds, link_at(rows, row, 2), store, left),
            rows,
            row,
            store,
        ),
        60 => after_value(part(&*rows, &*bounds, link_at(rows, row, 1), 0, store, left)),
        54..=55 => guarded(&*rows, &*bounds, row, number == 55, store, left),
        _ => NEXT,
    }
}

// The list from a first item on; 0 is the empty list.
#[cycle(run)]
fn list(rows: &[i32], bounds: &[usize], first: usize, store: &mut [i32], left: &mut u32) -> i64
    requires { Ready rows.now bounds.now (length store.old) first }
    ensures { ran result left.new store.new ≡ spend (items_from rows.now bounds.now first) left.old store.old }
{
    let mut at = first;
    let mut answer = NEXT;
    while at != 0 {
        answer = item(&*rows, &*bounds, at, store, left);
        at = resume(rows, at, answer);
    }
    answer
}

// An if's row, entered: the test, then one branch.
#[cycle(run)]
fn branch(rows: &[i32], bounds: &[usize], row: usize, store: &mut [i32], left: &mut u32) -> i64
    requires { Entered rows.now bounds.now (length store.old) row (OfStatement If) }
    ensures { ran result left.new store.new ≡ spend (perform_at rows.now bounds.now row) left.old store.old }
{
    let answer = eval(&*rows, &*bounds, link_at(rows, row, 1), store, left);
    let Some(value) = operand(answer) else {
        return answer;
    };
    if is_true(value) {
        return exec(&*rows, &*bounds, link_at(rows, row, 2), store, left);
    }
    let other = link_at(rows, row, 3);
    if other == 0 {
        return NEXT;
    }
    exec(&*rows, &*bounds, other, store, left)
}

// A switch's row, entered: "go to the case of equal value, else to default, else past the switch; then fall through until break".
#[cycle(run)]
fn switch(rows: &[i32], bounds: &[usize], row: usize, store: &mut [i32], left: &mut u32) -> i64
    requires { Entered rows.now bounds.now (length store.old) row (OfStatement Switch) }
    ensures { ran result left.new store.new ≡ spend (perform_at rows.now bounds.now row) left.old store.old }
{
    let answer = eval(&*rows, &*bounds, link_at(rows, row, 1), store, left);
    let Some(value) = operand(answer) else {
        return answer;
    };
    let first = find_start(rows, link_at(rows, row, 2), value);
    after_switch(list(&*rows, &*bounds, first, store, left))
}
