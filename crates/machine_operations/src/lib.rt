// What an evaluation does without entering a row. An answer is one number, so that it comes back in a register, since structs and enums come
// back through memory (docs/PERFORMANCE.md): a word is the value, and the numbers behind the words say why the run stops: the greatest word and
// the ending's number.
#![tactic(auto)]

pub mod answers; // answers.rt: what an answer says
pub mod operations; // operations.rt: what an evaluation does without entering a row

pub const GREATEST_WORD: i64 = 2147483647;

// The answer for a run that has no step left.
pub const SPENT: i64 = GREATEST_WORD + 1;

// The answer for a run in which no guard is true: that fault's number, as a constant.
pub const GUARD: i64 = GREATEST_WORD + 5;
