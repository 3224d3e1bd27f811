// Output lines: what a program answers, as bytes at the start of a buffer.
#![tactic(auto)]

pub mod field; // field.rt: the fields of a line, each with the blank before it
pub mod line; // line.rt: whole lines
