// The lines of the flat list, written row by row: each row's own lines, at the row's line, into a lent list.
#![tactic(auto)]

pub mod lines; // lines.rt: five words, a test and a jump
pub mod operations; // operations.rt: the line of an assignment
pub mod rows; // rows.rt: the lines of a row, and of all rows
pub mod tests; // tests.rt: the lines of an if and of a while, around those of their branches
