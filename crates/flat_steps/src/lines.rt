// What the line of each kind does.
ghost use Rattle.std.specs.Prelude.{◌≡◌, true, length, ◌-◌};
ghost use Rattle.words.specs.Kinds.{between, operator_of};
ghost use Rattle.arithmetic.specs.Arithmetic.{apply as apply_of};
ghost use Rattle.machine_operations.specs.Bounds.{layout_from};
ghost use Rattle.flat.specs.Lines.{next_of};
ghost use Rattle.flat.specs.Words.{line_at};
ghost use Rattle.flat_steps.specs.Steps.{Makes, ReadyLine, OfKind};

use super::operands::{assign, locate, number_at, operand, store_word, target_of};
use arithmetic::{add, bit, divide, is_true, minus, multiply, remainder, subtract};
use flat::lines::{left_constant, operation_kind, right_constant};
use machine_operations::operations::is_binary;
use words::FaultSort;

// Kind 1: a value is stored.
fn copy(
    list: &[i32],
    bounds: &[usize],
    line: usize,
    operation: usize,
    store: &mut [i32],
) -> Result<usize, FaultSort>
    requires { OfKind bounds.now list.now (length store.old) line operation 1 }
    ensures { Makes store.old result store.new (next_of (layout_from bounds.now) (line_at list.now line) line store.old) }
{
    let value = operand(list, line, 2, left_constant(operation), store);
    Ok(store_word(value, number_at(list, line, 1), line, store))
}

// Kind 4: minus.
fn negate(
    list: &[i32],
    bounds: &[usize],
    line: usize,
    operation: usize,
    store: &mut [i32],
) -> Result<usize, FaultSort>
    requires { OfKind bounds.now list.now (length store.old) line operation 4 }
    ensures { Makes store.old result store.new (next_of (layout_from bounds.now) (line_at list.now line) line store.old) }
{
    let value = operand(list, line, 2, left_constant(operation), store);
    assign(minus(value), number_at(list, line, 1), line, store)
}

// What an operation gives. This is for `operate` alone, so that the compiler builds it in: what `apply` gives would come back through
// memory.
fn outcome(kind: usize, left: i32, right: i32) -> Result<i32, FaultSort>
    requires { between 6 16 kind ≡ true }
    ensures { result ≡ apply_of (operator_of (kind - 6)) left right }
{
    match kind {
        6 => add(left, right),
        7 => subtract(left, right),
        8 => multiply(left, right),
        9 => divide(left, right),
        10 => remainder(left, right),
        11 => Ok(bit(left < right)),
        12 => Ok(bit(right < left)),
        13 => Ok(bit(left <= right)),
        14 => Ok(bit(right <= left)),
        15 => Ok(bit(left == right)),
        _ => Ok(bit(left != right)),
    }
}

// Kinds 6 to 16.
fn operate(
    list: &[i32],
    bounds: &[usize],
    line: usize,
    operation: usize,
    kind: usize,
    store: &mut [i32],
) -> Result<usize, FaultSort>
    requires { OfKind bounds.now list.now (length store.old) line operation kind × (between 6 16 kind ≡ true) }
    ensures { Makes store.old result store.new (next_of (layout_from bounds.now) (line_at list.now line) line store.old) }
{
    let left = operand(list, line, 2, left_constant(operation), store);
    let right = operand(list, line, 3, right_constant(operation), store);
    let result = outcome(kind, left, right);
    assign(result, number_at(list, line, 1), line, store)
}

// Kind 3: an element is stored.
fn fetch(
    list: &[i32],
    bounds: &[usize],
    line: usize,
    operation: usize,
    store: &mut [i32],
) -> Result<usize, FaultSort>
    requires { OfKind bounds.now list.now (length store.old) line operation 3 }
    ensures { Makes store.old result store.new (next_of (layout_from bounds.now) (line_at list.now line) line store.old) }
{
    let index = operand(list, line, 3, right_constant(operation), store);
    let at = locate(bounds, number_at(list, line, 2), index)?;
    let value = store[at];
    Ok(store_word(value, number_at(list, line, 1), line, store))
}

// Kind 21: a value is stored in an element.
fn put(
    list: &[i32],
    bounds: &[usize],
    line: usize,
    operation: usize,
    store: &mut [i32],
) -> Result<usize, FaultSort>
    requires { OfKind bounds.now list.now (length store.old) line operation 21 }
    ensures { Makes store.old result store.new (next_of (layout_from bounds.now) (line_at list.now line) line store.old) }
{
    let value = operand(list, line, 3, right_constant(operation), store);
    let index = operand(list, line, 2, left_constant(operation), store);
    let at = locate(bounds, number_at(list, line, 1), index)?;
    Ok(store_word(value, at, line, store))
}

// Kind 43: a jump where the operand is 0.
fn jump_zero(
    list: &[i32],
    bounds: &[usize],
    line: usize,
    operation: usize,
    store: &[i32],
) -> Result<usize, FaultSort>
    requires { OfKind bounds.now list.now (length store.now) line operation 43 }
    ensures { Makes store.now result store.now (next_of (layout_from bounds.now) (line_at list.now line) line store.now) }
{
    let value = operand(list, line, 2, left_constant(operation), store);
    if is_true(value) {
        return Ok(line + 1);
    }
    Ok(target_of(list, line))
}

// Kind 44: a jump where the operand is not 0.
fn jump_other(
    list: &[i32],
    bounds: &[usize],
    line: usize,
    operation: usize,
    store: &[i32],
) -> Result<usize, FaultSort>
    requires { OfKind bounds.now list.now (length store.now) line operation 44 }
    ensures { Makes store.now result store.now (next_of (layout_from bounds.now) (line_at list.now line) line store.now) }
{
    let value = operand(list, line, 2, left_constant(operation), store);
    if is_true(value) {
        return Ok(target_of(list, line));
    }
    Ok(line + 1)
}

// A line is made. Kind 43 and kinds 6 to 16 are the most frequent, and have no table of places in front; kind 4, the last, is the most
// seldom.
pub fn make(
    list: &[i32],
    bounds: &[usize],
    line: usize,
    store: &mut [i32],
) -> Result<usize, FaultSort>
    requires { ReadyLine bounds.now list.now (length store.old) line }
    ensures { Makes store.old result store.new (next_of (layout_from bounds.now) (line_at list.now line) line store.old) }
{
    let operation = number_at(list, line, 0);
    let kind = operation_kind(operation);
    if kind == 43 {
        return jump_zero(list, bounds, line, operation, store);
    }
    if is_binary(kind) {
        return operate(list, bounds, line, operation, kind, store);
    }
    if kind == 1 {
        return copy(list, bounds, line, operation, store);
    }
    if kind == 52 {
        return Ok(target_of(list, line));
    }
    if kind == 3 {
        return fetch(list, bounds, line, operation, store);
    }
    if kind == 21 {
        return put(list, bounds, line, operation, store);
    }
    if kind == 44 {
        return jump_other(list, bounds, line, operation, store);
    }
    if kind == 57 {
        return Err(FaultSort::Guard);
    }
    negate(list, bounds, line, operation, store)
}
