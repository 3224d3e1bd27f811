// One line of a flat list: what the line of each kind does.
#![tactic(auto)]

pub mod lines; // lines.rt: what the line of each kind does
pub mod operands; // operands.rt: numbers and operands of a line, stores, jumps
