// The writers of a program: its functions, which stand at the front of its list, and its main part.
#![tactic(auto)]

pub mod definitions; // definitions.rt: the writers of definitions and of a program's list
pub mod lists; // lists.rt: what a list takes
pub mod parameters; // parameters.rt: the parameters of a function
pub mod program; // program.rt: the writer of a program
