// What an answer says: a word is a value, and the numbers behind the words say why the run stops.
ghost use Rattle.std.specs.Prelude.{◌≡◌, false};
ghost use Rattle.words.specs.Word.{is_word};
ghost use Rattle.computation.specs.Run.{fault as fault_of};
ghost use Rattle.machine_operations.specs.Answers.{is_return as is_return_of, operand_of, position_of, stop_number, beyond as beyond_of, Settles};

use super::GREATEST_WORD;
use words::FaultSort;
use words::table::natural;
use words_endings::fault_number;

// Whether an answer is a return's: its value, counted from 2^33.
pub fn is_return(answer: i64) -> bool
    ensures { result ≡ is_return_of answer }
{
    if answer < 6442450944 {
        return false;
    }
    answer < 10737418240
}

// The operand that an answer gives. A word, as nearly every answer is, takes one test; what else an answer may be is told apart in a function
// that is not built in, so that the compiler keeps that test a branch (docs/PERFORMANCE.md).
pub fn operand(answer: i64) -> Option<i32>
    ensures { result ≡ operand_of answer }
{
    if answer < -2147483648 || answer > GREATEST_WORD {
        return operand_of_no_word(answer);
    }
    Some(answer as i32)
}

// The operand that an answer gives which is no word.
#[cold]
#[inline(never)]
fn operand_of_no_word(answer: i64) -> Option<i32>
    requires { is_word answer ≡ false }
    ensures { result ≡ operand_of answer }
{
    if is_return(answer) {
        return Some(0);
    }
    None
}

// The position that an answer gives: a place's, or the row of a block.
pub fn position(answer: i64) -> Option<usize>
    ensures { result ≡ position_of (operand_of answer) }
{
    Some(natural(operand(answer)?))
}

// The answer for a run that a fault stops.
pub fn fault(sort: FaultSort) -> i64
    ensures { result ≡ stop_number (fault_of sort) }
{
    GREATEST_WORD + fault_number(sort) as i64
}

// How far an answer lies behind the words: the number of the ending, where the run stopped.
pub fn beyond(answer: i64) -> u64
    ensures { result ≡ beyond_of answer }
{
    if answer < GREATEST_WORD {
        return 0;
    }
    answer as u64 - GREATEST_WORD as u64
}

// The answer for what an operation gives.
pub fn settled(computed: Result<i32, FaultSort>) -> i64
    ensures { Settles result computed }
{
    match computed {
        Ok(value) => value as i64,
        Err(sort) => fault(sort),
    }
}
