// The part of the machine that evaluates expressions and runs statements and lists: functions that call each other, one cycle. The measure of
// all is the unspent budget, and a little more for a function that calls before a step is made.
//
// An answer is one number, since structs and enums come back through memory, and slices are lent again at each call (`&*rows`): handed on as
// they stand they would be copied as one piece of 16 bytes, on which the callee's reads of pointer and length wait (docs/PERFORMANCE.md).
// For both reasons rows, bounds, store and steps left are parameters each, and no struct.
#![tactic(auto)]

pub mod calls; // calls.rt: arguments, parameters, the function's block
pub mod expressions; // expressions.rt: values and places
pub mod loops; // loops.rt: rounds, and the arms of guarded statements
pub mod statements; // statements.rt: statements and lists
