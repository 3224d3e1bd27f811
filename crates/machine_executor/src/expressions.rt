// Expressions: `eval` enters the row of one, and `compute` hands it to the function of its kind.
ghost use Rattle.std.specs.Prelude.{◌≡◌, length};
ghost use Rattle.words.specs.Word.{pick};
ghost use Rattle.words.specs.declared.Kind.TheVariants.{OfExpression};
ghost use Rattle.words.specs.declared.ExpressionKind.TheVariants.{Element, Binary, And, Or, Conditional, Comma, Assign, Compound, Prefix, Postfix};
ghost use Rattle.computation.specs.Remaining.{spend};
ghost use Rattle.machine_operations.specs.Answers.{answered, placed};
ghost use Rattle.machine_operations.specs.Ready.{Ready, ReadyPlace, Entered};
ghost use Rattle.machine_operations.specs.Rows.{value_at, evaluate_at, place_at, locate_at};

use super::calls::call;
use arithmetic::{bit, is_true};
use machine_operations::SPENT;
use machine_operations::answers::{operand, position};
use machine_operations::operations::{
    constant, decides, fetch, is_binary, link_at, negate, operate, update, variable, within,
};
use words::Operator;
use words::table::{number_at, word_at};
use words_kinds::operator_of;

// The value of the expression at a row. Constants and variables, half of all rows entered, are taken here.
#[cycle(run)]
pub fn eval(rows: &[i32], bounds: &[usize], row: usize, store: &mut [i32], left: &mut u32) -> i64
    requires { Ready rows.now bounds.now (length store.old) row }
    ensures { answered result left.new store.new ≡ spend (value_at rows.now bounds.now row) left.old store.old }
{
    let n = *left;
    if n == 0 {
        return SPENT;
    }
    *left = n - 1;
    let number = number_at(rows, row, 0);
    if number == 1 {
        return constant(rows, row);
    }
    if number == 2 {
        return variable(rows, bounds, row, store);
    }
    compute(&*rows, &*bounds, row, store, left)
}

// A row that was entered: what follows, by the number of its kind; the kind itself would come back through memory, a fifth more time
// (docs/PERFORMANCE.md). Kinds 6 to 16, the
// most frequent ones, are told first, so that the compiler builds their operations in. A row that is no expression has the value 0.
// `compute` has two callers, `eval` and `express`, so that it stays a function of the compiled code, and the short `eval` is built into
// the functions that call it.
#[cycle(run)]
pub fn compute(rows: &[i32], bounds: &[usize], row: usize, store: &mut [i32], left: &mut u32) -> i64
    requires { Ready rows.now bounds.now (length store.old) row }
    ensures { answered result left.new store.new ≡ spend (evaluate_at rows.now bounds.now row) left.old store.old }
{
    let number = number_at(rows, row, 0);
    if is_binary(number) {
        return binary(&*rows, &*bounds, row, operator_of(number - 6), store, left);
    }
    match number {
        1 => constant(rows, row),
        2 => variable(rows, bounds, row, store),
        3 => fetch(locate(&*rows, &*bounds, row, store, left), store),
        4 => negate(
            eval(&*rows, &*bounds, link_at(rows, row, 1), store, left),
            false,
        ),
        5 => negate(
            eval(&*rows, &*bounds, link_at(rows, row, 1), store, left),
            true,
        ),
        17 => logical(&*rows, &*bounds, row, false, store, left),
        18 => logical(&*rows, &*bounds, row, true, store, left),
        19 => ternary(&*rows, &*bounds, row, store, left),
        20 => comma(&*rows, &*bounds, row, store, left),
        21 => assign(&*rows, &*bounds, row, store, left),
        31 => call(&*rows, &*bounds, row, store, left),
        22..=26 => compound(&*rows, &*bounds, row, operator_of(number - 22), store, left),
        27..=28 => increment(
            &*rows,
            &*bounds,
            row,
            operator_of(number - 27),
            false,
            store,
            left,
        ),
        29..=30 => increment(
            &*rows,
            &*bounds,
            row,
            operator_of(number - 29),
            true,
            store,
            left,
        ),
        _ => 0,
    }
}

// An element's row, entered: the index, then the bounds test.
#[cycle(run)]
fn locate(rows: &[i32], bounds: &[usize], row: usize, store: &mut [i32], left: &mut u32) -> i64
    requires { Entered rows.now bounds.now (length store.old) row (OfExpression Element) }
    ensures { placed result left.new store.new ≡ spend (locate_at rows.now bounds.now row) left.old store.old }
{
    let answer = eval(&*rows, &*bounds, link_at(rows, row, 2), store, left);
    let Some(value) = operand(answer) else {
        return answer;
    };
    within(bounds, link_at(rows, row, 1), value)
}

// The store position of the place at a row.
#[cycle(run)]
fn place(rows: &[i32], bounds: &[usize], row: usize, store: &mut [i32], left: &mut u32) -> i64
    requires { ReadyPlace rows.now bounds.now (length store.old) row }
    ensures { placed result left.new store.new ≡ spend (place_at rows.now bounds.now row) left.old store.old }
{
    let n = *left;
    if n == 0 {
        return SPENT;
    }
    *left = n - 1;
    let number = number_at(rows, row, 0);
    if number == 3 {
        return locate(&*rows, &*bounds, row, store, left);
    }
    word_at(rows, row, 1) as i64
}

// Kinds 6 to 16: "right operand, then left, then the operation".
#[cycle(run)]
fn binary(
    rows: &[i32],
    bounds: &[usize],
    row: usize,
    operator: Operator,
    store: &mut [i32],
    left: &mut u32,
) -> i64
    requires { Entered rows.now bounds.now (length store.old) row (OfExpression (Binary operator)) }
    ensures { answered result left.new store.new ≡ spend (evaluate_at rows.now bounds.now row) left.old store.old }
{
    let right_answer = eval(&*rows, &*bounds, link_at(rows, row, 2), store, left);
    let Some(right) = operand(right_answer) else {
        return right_answer;
    };
    let left_answer = eval(&*rows, &*bounds, link_at(rows, row, 1), store, left);
    let Some(value) = operand(left_answer) else {
        return left_answer;
    };
    operate(operator, value, right)
}

// And, or: the left operand decides where it is false, or true.
#[cycle(run)]
fn logical(
    rows: &[i32],
    bounds: &[usize],
    row: usize,
    decided: bool,
    store: &mut [i32],
    left: &mut u32,
) -> i64
    requires { Entered rows.now bounds.now (length store.old) row (OfExpression (pick decided Or And)) }
    ensures { answered result left.new store.new ≡ spend (evaluate_at rows.now bounds.now row) left.old store.old }
{
    let left_answer = eval(&*rows, &*bounds, link_at(rows, row, 1), store, left);
    let Some(value) = operand(left_answer) else {
        return left_answer;
    };
    if decides(value, decided) {
        return bit(decided) as i64;
    }
    let right_answer = eval(&*rows, &*bounds, link_at(rows, row, 2), store, left);
    let Some(right) = operand(right_answer) else {
        return right_answer;
    };
    bit(is_true(right)) as i64
}

// Kind 19: the test, then one branch.
#[cycle(run)]
fn ternary(rows: &[i32], bounds: &[usize], row: usize, store: &mut [i32], left: &mut u32) -> i64
    requires { Entered rows.now bounds.now (length store.old) row (OfExpression Conditional) }
    ensures { answered result left.new store.new ≡ spend (evaluate_at rows.now bounds.now row) left.old store.old }
{
    let answer = eval(&*rows, &*bounds, link_at(rows, row, 1), store, left);
    let Some(value) = operand(answer) else {
        return answer;
    };
    if is_true(value) {
        return eval(&*rows, &*bounds, link_at(rows, row, 2), store, left);
    }
    eval(&*rows, &*bounds, link_at(rows, row, 3), store, left)
}

#[cycle(run)]
fn comma(rows: &[i32], bounds: &[usize], row: usize, store: &mut [i32], left: &mut u32) -> i64
    requires { Entered rows.now bounds.now (length store.old) row (OfExpression Comma) }
    ensures { answered result left.new store.new ≡ spend (evaluate_at rows.now bounds.now row) left.old store.old }
{
    let answer = eval(&*rows, &*bounds, link_at(rows, row, 1), store, left);
    let Some(_) = operand(answer) else {
        return answer;
    };
    eval(&*rows, &*bounds, link_at(rows, row, 2), store, left)
}

// "Value, then the place's index, then the bounds test, then the store. The result is the value stored."
#[cycle(run)]
fn assign(rows: &[i32], bounds: &[usize], row: usize, store: &mut [i32], left: &mut u32) -> i64
    requires { Entered rows.now bounds.now (length store.old) row (OfExpression Assign) }
    ensures { answered result left.new store.new ≡ spend (evaluate_at rows.now bounds.now row) left.old store.old }
{
    let value_answer = eval(&*rows, &*bounds, link_at(rows, row, 2), store, left);
    let Some(value) = operand(value_answer) else {
        return value_answer;
    };
    let place_answer = place(&*rows, &*bounds, link_at(rows, row, 1), store, left);
    let Some(at) = position(place_answer) else {
        return place_answer;
    };
    store[at] = value;
    value_answer
}

// Kinds 22 to 26: "value, index, bounds test, read, operate, store".
#[cycle(run)]
fn compound(
    rows: &[i32],
    bounds: &[usize],
    row: usize,
    operator: Operator,
    store: &mut [i32],
    left: &mut u32,
) -> i64
    requires { Entered rows.now bounds.now (length store.old) row (OfExpression (Compound operator)) }
    ensures { answered result left.new store.new ≡ spend (evaluate_at rows.now bounds.now row) left.old store.old }
{
    let value_answer = eval(&*rows, &*bounds, link_at(rows, row, 2), store, left);
    let Some(right) = operand(value_answer) else {
        return value_answer;
    };
    let place_answer = place(&*rows, &*bounds, link_at(rows, row, 1), store, left);
    let Some(at) = position(place_answer) else {
        return place_answer;
    };
    update(operator, at, right, false, store)
}

// Kinds 27 to 30: by 1, with the new value as the result, or the old one.
#[cycle(run)]
fn increment(
    rows: &[i32],
    bounds: &[usize],
    row: usize,
    operator: Operator,
    old: bool,
    store: &mut [i32],
    left: &mut u32,
) -> i64
    requires { Entered rows.now bounds.now (length store.old) row (OfExpression (pick old (Postfix operator) (Prefix operator))) }
    ensures { answered result left.new store.new ≡ spend (evaluate_at rows.now bounds.now row) left.old store.old }
{
    let place_answer = place(&*rows, &*bounds, link_at(rows, row, 1), store, left);
    let Some(at) = position(place_answer) else {
        return place_answer;
    };
    update(operator, at, 1, old, store)
}
