// Calls: the arguments and the parameters, then the function's block.
ghost use Rattle.std.specs.Prelude.{◌≡◌, length};
ghost use Rattle.words.specs.declared.Kind.TheVariants.{OfExpression};
ghost use Rattle.words.specs.declared.ExpressionKind.TheVariants.{Call};
ghost use Rattle.computation.specs.Remaining.{spend};
ghost use Rattle.machine_operations.specs.Answers.{answered};
ghost use Rattle.machine_operations.specs.Ready.{Entered};
ghost use Rattle.machine_operations.specs.Rows.{evaluate_at};
ghost use Rattle.machine_executor.specs.Calls.{bound_at, ReadyBind};

use super::expressions::eval;
use super::statements::exec;
use machine_flows::calls::{argument_count, row_behind, store_parameter};
use machine_flows::flows::after_call;
use machine_flows::functions::function_row;
use machine_operations::SPENT;
use machine_operations::answers::operand;
use machine_operations::operations::link_at;
use words::table::number_at;

// A call's row, entered: the arguments and the parameters, then the function's block. `bind` has returned by then, so that none of its frames is
// on the stack while the block runs.
#[cycle(run)]
pub fn call(rows: &[i32], bounds: &[usize], row: usize, store: &mut [i32], left: &mut u32) -> i64
    requires { Entered rows.now bounds.now (length store.old) row (OfExpression Call) }
    ensures { answered result left.new store.new ≡ spend (evaluate_at rows.now bounds.now row) left.old store.old }
{
    let definition = function_row(bounds, number_at(rows, row, 1));
    let first = link_at(rows, row, 2);
    let parameter = link_at(rows, definition, 2);
    let count = argument_count(rows, first);
    let answer = bind(&*rows, &*bounds, first, parameter, count, store, left);
    let Some(_) = operand(answer) else {
        return answer;
    };
    after_call(exec(&*rows, &*bounds, link_at(rows, definition, 3), store, left))
}

// The first `count` arguments of a call, from the last to the first, and then as many of its function's parameters: "all before any parameter is
// stored". Each value waits in a frame of this function, which calls itself and so stays a function of the compiled code: an array would be in
// the frame of `compute`, for each call under way.
#[cycle(run)]
fn bind(
    rows: &[i32],
    bounds: &[usize],
    first: usize,
    parameter: usize,
    count: usize,
    store: &mut [i32],
    left: &mut u32,
) -> i64
    requires { ReadyBind rows.now bounds.now (length store.old) first parameter count }
    ensures { answered result left.new store.new ≡ spend (bound_at rows.now bounds.now first parameter count) left.old store.old }
{
    if count == 0 {
        return 0;
    }
    let n = *left;
    if n == 0 {
        return SPENT;
    }
    *left = n - 1;
    let place = count - 1;
    let at = row_behind(rows, first, place);
    let answer = eval(&*rows, &*bounds, link_at(rows, at, 1), store, left);
    let Some(value) = operand(answer) else {
        return answer;
    };
    let before = bind(&*rows, &*bounds, first, parameter, place, store, left);
    let Some(_) = operand(before) else {
        return before;
    };
    store_parameter(rows, row_behind(rows, parameter, place), value, store);
    0
}
