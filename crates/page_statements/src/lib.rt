// The line that a statement's bytes on a page are.
#![tactic(auto)]

pub mod lines; // lines.rt: the line
pub mod values; // values.rt: operators and what is assigned
