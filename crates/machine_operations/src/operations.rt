// What an evaluation does without entering a row: links, words of the store, negation, the bounds test, stores.
ghost use Rattle.std.specs.Prelude.{◌≡◌, not, List, ℕ, ◌+◌, ◌*◌, ◌-◌, ◌<◌, ℤ, length, get_or};
ghost use Rattle.words.specs.Word.{pick};
ghost use Rattle.words.specs.Table.{word_at, number_at};
ghost use Rattle.words.specs.Kinds.{between};
ghost use Rattle.words.specs.declared.Kind.TheVariants.{OfExpression};
ghost use Rattle.words.specs.declared.ExpressionKind.TheVariants.{Variable};
ghost use Rattle.arithmetic.specs.Arithmetic.{is_true, apply as apply_of, element as element_of};
ghost use Rattle.computation.specs.Remaining.{gives, spend};
ghost use Rattle.language.specs.Meaning.{update as update_of, old_value, new_value};
ghost use Rattle.machine_operations.specs.Answers.{operand_of, answered, position_of, Settles, Places, Fetches, Negates};
ghost use Rattle.machine_operations.specs.Ready.{Bounded, Entered};
ghost use Rattle.machine_operations.specs.Rows.{evaluate_at};

use super::answers::{fault, operand, position, settled};
use arithmetic::{
    add, apply, bit, divide, element, is_true, logical_not, minus, multiply, remainder, subtract,
};
use words::table::word_at;
use words::{FaultSort, Operator};

// A field that is no negative word, as the number it names.
pub fn link_at(rows: &[i32], row: usize, field: usize) -> usize
    requires { (6 * row + field < length rows.now) × (number_at rows.now row field < 2147483648) }
    ensures { result ≡ number_at rows.now row field }
{
    rows[6 * row + field] as usize
}

// A constant's row, entered.
pub fn constant(rows: &[i32], row: usize) -> i64
    requires { 6 * row + 1 < length rows.now }
    ensures { (n : ℕ) (s : List ℤ) → answered result n s ≡ gives (word_at rows.now row 1) n s }
{
    word_at(rows, row, 1) as i64
}

// A variable's row, entered: its word of the store.
pub fn variable(rows: &[i32], bounds: &[usize], row: usize, store: &[i32]) -> i64
    requires { Entered rows.now bounds.now (length store.now) row (OfExpression Variable) }
    ensures { (n : ℕ) → answered result n store.now ≡ spend (evaluate_at rows.now bounds.now row) n store.now }
{
    let at = link_at(rows, row, 1);
    store[at] as i64
}

// The word at the position that a place's answer gives; a stop is handed on.
pub fn fetch(answer: i64, store: &[i32]) -> i64
    requires { (length store.now < 65536) × ((i : ℕ) → position_of (operand_of answer) ≡ Some i → i < length store.now) }
    ensures { Fetches answer store.now result }
{
    let Some(at) = position(answer) else {
        return answer;
    };
    store[at] as i64
}

// Minus, or not, of the operand that an answer gives; a stop is handed on.
pub fn negate(answer: i64, truth: bool) -> i64
    ensures { Negates truth answer result }
{
    let Some(value) = operand(answer) else {
        return answer;
    };
    if truth {
        return logical_not(value) as i64;
    }
    settled(minus(value))
}

// Whether this is the number of a binary operation: kinds 6 to 16.
pub fn is_binary(number: usize) -> bool
    ensures { result ≡ between 6 16 number }
{
    number >= 6 && number <= 16
}

// Whether the left operand of an and (false) or an or (true) decides its value.
pub fn decides(value: i32, decided: bool) -> bool
    ensures { result ≡ pick decided (is_true value) (not (is_true value)) }
{
    if decided {
        return is_true(value);
    }
    !is_true(value)
}

// The bounds test: an array lies from its own bound up to the next.
pub fn within(bounds: &[usize], array: usize, index: i32) -> i64
    requires { Bounded bounds.now array }
    ensures { Places result (element_of (get_or bounds.now array 0) (get_or bounds.now (array + 1) 0 - get_or bounds.now array 0) index) }
{
    let base = bounds[array];
    let end = bounds[array + 1];
    match element(base, end - base, index) {
        Some(at) => at as i64,
        None => fault(FaultSort::Index),
    }
}

// The answer of an operation: kinds 6 to 16. This is for `binary` alone, so that the compiler builds it in: what `apply` gives would
// come back through memory.
pub fn operate(operator: Operator, left: i32, right: i32) -> i64
    ensures { Settles result (apply_of operator left right) }
{
    match operator {
        Operator::Add => settled(add(left, right)),
        Operator::Subtract => settled(subtract(left, right)),
        Operator::Multiply => settled(multiply(left, right)),
        Operator::Divide => settled(divide(left, right)),
        Operator::Remainder => settled(remainder(left, right)),
        Operator::Less => bit(left < right) as i64,
        Operator::Greater => bit(right < left) as i64,
        Operator::LessOrEqual => bit(left <= right) as i64,
        Operator::GreaterOrEqual => bit(right <= left) as i64,
        Operator::Equal => bit(left == right) as i64,
        Operator::NotEqual => bit(left != right) as i64,
    }
}

// Read a word, operate, store; the result is the old value or the new one.
pub fn update(operator: Operator, at: usize, right: i32, old: bool, store: &mut [i32]) -> i64
    requires { at < length store.old }
    ensures { (n : ℕ) → answered result n store.new ≡ spend (update_of operator at right (pick old old_value new_value)) n store.old }
{
    let before = store[at];
    let result = apply(operator, before, right);
    let Ok(after) = result else {
        return settled(result);
    };
    store[at] = after;
    if old {
        return before as i64;
    }
    after as i64
}
