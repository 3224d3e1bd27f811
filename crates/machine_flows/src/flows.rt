// What a statement's answer says: -1 next, -2 break, -3 continue, a label that is sought (-4 for one that no label has), or, beyond
// the words, why the run stops, as an evaluation says it, or the value that a return gives, counted from 2^33. A round's answer says the same, where a continue goes round again.
ghost use Rattle.std.specs.Prelude.{◌≡◌, List, ℕ, ◌+◌, ◌*◌, ◌<◌, ℤ, length};
ghost use Rattle.words.specs.Word.{natural as natural_of};
ghost use Rattle.words.specs.Table.{number_at};
ghost use Rattle.language.specs.Trees.{label as label_of};
ghost use Rattle.language.specs.Meaning.{seeking};
ghost use Rattle.computation.specs.Remaining.{gives};
ghost use Rattle.machine_flows.specs.Flows.{flow_of, passing_of, ran, EndsExpression, EndsDeclaration, EndsReturn, EndsCall, EndsUnguarded, EndsSwitch, EndsBody, EndsRound};

use super::{CONTINUE, Flow, NEXT, NO_LABEL, RETURN};
use arithmetic::is_true;
use machine_operations::GUARD;
use machine_operations::answers::{is_return, operand};
use machine_operations::operations::link_at;
use words::table::natural;

// How the statement with this answer ended.
pub fn flow(answer: i64) -> Flow
    ensures { result ≡ flow_of answer }
{
    if is_return(answer) {
        return Flow::Return;
    }
    let Some(number) = operand(answer) else {
        return Flow::Halted;
    };
    passing(number)
}

// How a statement that was not stopped ended, by its word.
fn passing(number: i32) -> Flow
    ensures { result ≡ passing_of number }
{
    // Kept as tests: a match on a signed number tells a proof nothing of the number.
    if number == -1 {
        return Flow::Next;
    }
    if number == -2 {
        return Flow::Break;
    }
    if number == -3 {
        return Flow::Continue;
    }
    Flow::Goto(natural(number))
}

// The answer of a goto to this label.
pub fn jump(label: i32) -> i64
    ensures { (n : ℕ) (s : List ℤ) → ran result n s ≡ gives (seeking (label_of (natural_of label))) n s }
{
    if label < 0 {
        return NO_LABEL;
    }
    label as i64
}

// The answer of an expression statement whose expression has this one.
pub fn after_expression(answer: i64) -> i64
    ensures { EndsExpression answer result }
{
    let Some(_) = operand(answer) else {
        return answer;
    };
    NEXT
}

// The answer of the declaration at a row whose initial expression has this one: its value goes to the word of the new object.
pub fn after_initial(answer: i64, rows: &[i32], row: usize, store: &mut [i32]) -> i64
    requires { (6 * row + 1 < length rows.now) × (number_at rows.now row 1 < length store.old) × (length store.old < 65536) }
    ensures { EndsDeclaration (number_at rows.now row 1) answer store.old result store.new }
{
    let Some(value) = operand(answer) else {
        return answer;
    };
    let at = link_at(rows, row, 1);
    store[at] = value;
    NEXT
}

// The answer of a return whose value has this one.
pub fn after_value(answer: i64) -> i64
    ensures { EndsReturn answer result }
{
    let Some(value) = operand(answer) else {
        return answer;
    };
    RETURN + value as i64
}

// The answer of a call whose block ended with this one: the value of its return, or 0, "reaching the end returns 0".
pub fn after_call(answer: i64) -> i64
    ensures { EndsCall answer result }
{
    if is_return(answer) {
        return answer - RETURN;
    }
    let Some(_) = operand(answer) else {
        return answer;
    };
    0
}

// The answer of a guarded statement none of whose guards is true: a guarded do is at its end, a guarded if fails.
pub fn without_guard(repeats: bool) -> i64
    ensures { EndsUnguarded repeats result }
{
    if repeats {
        return NEXT;
    }
    GUARD
}

// The answer of a switch whose items ended with this one.
pub fn after_switch(answer: i64) -> i64
    ensures { EndsSwitch answer result }
{
    let Flow::Break = flow(answer) else {
        return answer;
    };
    NEXT
}

// The answer of a round whose body ended with this one.
pub fn after_body(answer: i64) -> i64
    ensures { EndsBody answer result }
{
    match flow(answer) {
        Flow::Next => CONTINUE,
        Flow::Break => NEXT,
        Flow::Return => answer,
        Flow::Continue | Flow::Goto(_) | Flow::Halted => answer,
    }
}

// The answer of a round whose last part has this value.
pub fn after_last(decides: bool, value: i32) -> i64
    ensures { EndsRound decides value result }
{
    if decides && !is_true(value) {
        return NEXT;
    }
    CONTINUE
}
