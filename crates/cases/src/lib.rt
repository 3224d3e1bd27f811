// Cases: what the programs that run stored cases share: a case's start words, and the lines that its runs are told by.
#![tactic(auto)]

pub mod lines; // lines.rt: refusals and runs, printed
pub mod start; // start.rt: the words of the store at the start
