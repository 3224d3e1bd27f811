// Measures: how many kernel rows, temporaries and labels the code of each source row takes, found by one pass before anything is
// written. So every link of the translation is known when its row is written.
#![tactic(auto)]

pub mod arms; // arms.rt: the measures of arms
pub mod lists; // lists.rt: the measures of a list
pub mod pass; // pass.rt: the pass over the rows
pub mod program; // program.rt: the measures of a program with its functions
pub mod statements; // statements.rt: the measures of a statement
