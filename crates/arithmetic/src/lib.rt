// The operations on words, and the bounds test.
#![tactic(auto)]

ghost use Rattle.words.specs.declared.FaultSort.TheVariants.{Index};
ghost use Rattle.std.specs.Prelude.{◌≡◌, not, ◌+◌, ◌<◌, ok_or};
ghost use Rattle.std.specs.Int.Signed.{quot_z};
ghost use Rattle.words.specs.Word.{is_word};
ghost use Rattle.arithmetic.specs.Arithmetic.{in_word, apply as apply_of, minus as minus_of, element as element_of, bit as bit_of, is_true, logical_not};
ghost use Rattle.words.specs.declared.Operator.TheVariants.{Add, Subtract, Multiply, Divide, Remainder};

use words::table::natural;
use words::{FaultSort, Operator};

// A result of 32-bit operands, if 32 bits hold it.
fn narrow(res: i64) -> Result<i32, FaultSort>
    ensures { result ≡ in_word res }
{
    if res < -2147483648 {
        return Err(FaultSort::Overflow);
    }
    if res > 2147483647 {
        return Err(FaultSort::Overflow);
    }
    Ok(res as i32)
}

pub fn add(left: i32, right: i32) -> Result<i32, FaultSort>
    ensures { result ≡ apply_of Add left right }
{
    narrow(left as i64 + right as i64)
}

pub fn subtract(left: i32, right: i32) -> Result<i32, FaultSort>
    ensures { result ≡ apply_of Subtract left right }
{
    narrow(left as i64 - right as i64)
}

pub fn multiply(left: i32, right: i32) -> Result<i32, FaultSort>
    ensures { result ≡ apply_of Multiply left right }
{
    narrow((left as i64) * (right as i64))
}

// Whether the quotient is no word. The only one is that of the least word by -1.
fn quotient_overflows(left: i32, right: i32) -> bool
    ensures { result ≡ not (is_word (quot_z left right)) }
{
    if left == -2147483648 {
        return right == -1;
    }
    false
}

pub fn divide(left: i32, right: i32) -> Result<i32, FaultSort>
    ensures { result ≡ apply_of Divide left right }
{
    if right == 0 {
        return Err(FaultSort::ZeroDivisor);
    }
    if quotient_overflows(left, right) {
        return Err(FaultSort::Overflow);
    }
    Ok(left / right)
}

// The remainder is defined where the quotient is a word.
pub fn remainder(left: i32, right: i32) -> Result<i32, FaultSort>
    ensures { result ≡ apply_of Remainder left right }
{
    if right == 0 {
        return Err(FaultSort::ZeroDivisor);
    }
    if quotient_overflows(left, right) {
        return Err(FaultSort::Overflow);
    }
    Ok(left % right)
}

// 1 for true, 0 for false.
pub fn bit(test: bool) -> i32
    ensures { result ≡ bit_of test }
{
    if test {
        return 1;
    }
    0
}

pub fn is_true(value: i32) -> bool
    ensures { result ≡ is_true value }
{
    value != 0
}

pub fn logical_not(value: i32) -> i32
    ensures { result ≡ logical_not value }
{
    bit(!is_true(value))
}

pub fn minus(value: i32) -> Result<i32, FaultSort>
    ensures { result ≡ minus_of value }
{
    if value == -2147483648 {
        return Err(FaultSort::Overflow);
    }
    Ok(-value)
}

// Kinds 6 to 16.
pub fn apply(operator: Operator, left: i32, right: i32) -> Result<i32, FaultSort>
    ensures { result ≡ apply_of operator left right }
{
    match operator {
        Operator::Add => add(left, right),
        Operator::Subtract => subtract(left, right),
        Operator::Multiply => multiply(left, right),
        Operator::Divide => divide(left, right),
        Operator::Remainder => remainder(left, right),
        Operator::Less => Ok(bit(left < right)),
        Operator::Greater => Ok(bit(right < left)),
        Operator::LessOrEqual => Ok(bit(left <= right)),
        Operator::GreaterOrEqual => Ok(bit(right <= left)),
        Operator::Equal => Ok(bit(left == right)),
        Operator::NotEqual => Ok(bit(left != right)),
    }
}

// The bounds test, for the array of `length` words from `base` on.
pub fn element(base: usize, length: usize, index: i32) -> Option<usize>
    requires { (base < 65536) × (length < 65536) }
    ensures { ok_or result Index ≡ element_of base length index }
{
    let at = natural(index);
    if at < length {
        return Some(base + at);
    }
    None
}
