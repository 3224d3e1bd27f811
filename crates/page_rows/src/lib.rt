// The rows of a page's lines, each written into a table that is lent from the line's first row on.
#![tactic(auto)]

pub mod assignments; // assignments.rt: the rows of lines that assign
pub mod atoms; // atoms.rt: the atoms and numbers of a page, as the kernel has them
pub mod functions; // functions.rt: the rows of the lines of calls and definitions
pub mod lines; // lines.rt: the rows of each line
