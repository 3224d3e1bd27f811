// Lines of numbers, written and read.
#![tactic(auto)]

pub mod line; // line.rt: where a field or a line ends, and the numbers of a line
pub mod writer; // writer.rt: how many bytes words take, and the bytes of a line
