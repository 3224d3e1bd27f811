// The rounds of loops, and the arms of guarded statements.
ghost use Rattle.std.specs.Prelude.{◌≡◌, length};
ghost use Rattle.words.specs.Word.{pick};
ghost use Rattle.words.specs.declared.Kind.TheVariants.{OfStatement};
ghost use Rattle.words.specs.declared.StatementKind.TheVariants.{GuardedIf, GuardedDo};
ghost use Rattle.computation.specs.Remaining.{spend};
ghost use Rattle.machine_operations.specs.Answers.{answered};
ghost use Rattle.machine_operations.specs.Ready.{Ready, Entered};
ghost use Rattle.machine_flows.specs.Flows.{ran, turned};
ghost use Rattle.machine_executor.specs.Arms.{ReadyArms, Chooses};
ghost use Rattle.machine_executor.specs.Rows.{part_or, perform_at, round_at, rounds_at, ReadyRounds};

use super::expressions::eval;
use super::statements::exec;
use arithmetic::is_true;
use machine_flows::flows::{after_body, after_last, flow, without_guard};
use machine_flows::{Flow, NEXT};
use machine_operations::SPENT;
use machine_operations::answers::{operand, position};
use machine_operations::operations::link_at;

// A part of a for, or the value of a return; an absent one has this value.
#[cycle(run)]
pub fn part(
    rows: &[i32],
    bounds: &[usize],
    row: usize,
    absent: i32,
    store: &mut [i32],
    left: &mut u32,
) -> i64
    requires { Ready rows.now bounds.now (length store.old) row }
    ensures { answered result left.new store.new ≡ spend (part_or absent rows.now bounds.now row) left.old store.old }
{
    if row == 0 {
        return absent as i64;
    }
    eval(&*rows, &*bounds, row, store, left)
}

// A round of a loop: the test, the body, the last part. The last part is the step of a for; in a do, which has its test there, it
// decides whether another round follows. Kept as a flag: no closure goes through a cycle of calls, and the three loops differ in nothing else.
#[cycle(run)]
fn turn(
    rows: &[i32],
    bounds: &[usize],
    test: usize,
    body: usize,
    last: usize,
    decides: bool,
    store: &mut [i32],
    left: &mut u32,
) -> i64
    requires { ReadyRounds rows.now bounds.now (length store.old) test body last }
    ensures { turned result left.new store.new ≡ spend (round_at rows.now bounds.now test body last decides) left.old store.old }
{
    let test_answer = part(&*rows, &*bounds, test, 1, store, left);
    let Some(value) = operand(test_answer) else {
        return test_answer;
    };
    if !is_true(value) {
        return NEXT;
    }
    let body_answer = after_body(exec(&*rows, &*bounds, body, store, left));
    let Flow::Continue = flow(body_answer) else {
        return body_answer;
    };
    let last_answer = part(&*rows, &*bounds, last, 0, store, left);
    let Some(closing) = operand(last_answer) else {
        return last_answer;
    };
    after_last(decides, closing)
}

// The rounds of a loop, until one is the last.
#[cycle(run)]
pub fn rounds(
    rows: &[i32],
    bounds: &[usize],
    test: usize,
    body: usize,
    last: usize,
    decides: bool,
    store: &mut [i32],
    left: &mut u32,
) -> i64
    requires { ReadyRounds rows.now bounds.now (length store.old) test body last }
    ensures { ran result left.new store.new ≡ spend (rounds_at rows.now bounds.now test body last decides) left.old store.old }
{
    loop {
        let answer = turn(&*rows, &*bounds, test, body, last, decides, store, left);
        let Flow::Continue = flow(answer) else {
            return answer;
        };
    }
}

// The row of the block of the first arm from `first` on whose guard is true, or 0: no guard is true. "Arms are entered from the first until a
// guard is true": an arm's row is entered, then its guard's.
#[cycle(run)]
fn choose(rows: &[i32], bounds: &[usize], first: usize, store: &mut [i32], left: &mut u32) -> i64
    requires { ReadyArms rows.now bounds.now (length store.old) first }
    ensures { Chooses rows.now bounds.now first left.old store.old result left.new store.new }
{
    let mut at = first;
    while at != 0 {
        let n = *left;
        if n == 0 {
            return SPENT;
        }
        *left = n - 1;
        let answer = eval(&*rows, &*bounds, link_at(rows, at, 1), store, left);
        let Some(value) = operand(answer) else {
            return answer;
        };
        if is_true(value) {
            return link_at(rows, at, 2) as i64;
        }
        at = link_at(rows, at, 5);
    }
    0
}

// A guarded statement's row, entered: its arms, then the block that they come to. "Guarded if with no true guard gives a fourth fault"; a
// guarded do goes round until no guard is true, or a block ends with a break, a continue or a goto. Each round enters an arm, so the
// unspent budget falls.
#[cycle(run)]
pub fn guarded(
    rows: &[i32],
    bounds: &[usize],
    row: usize,
    repeats: bool,
    store: &mut [i32],
    left: &mut u32,
) -> i64
    requires { Entered rows.now bounds.now (length store.old) row (OfStatement (pick repeats GuardedDo GuardedIf)) }
    ensures { ran result left.new store.new ≡ spend (perform_at rows.now bounds.now row) left.old store.old }
{
    let first = link_at(rows, row, 1);
    loop {
        let answer = choose(&*rows, &*bounds, first, store, left);
        let Some(block) = position(answer) else {
            return answer;
        };
        if block == 0 {
            return without_guard(repeats);
        }
        let ended = exec(&*rows, &*bounds, block, store, left);
        if !repeats {
            return ended;
        }
        let Flow::Next = flow(ended) else {
            return ended;
        };
    }
}
