// Cause 8: a second equal case, or a second default, in one switch.
#![tactic(auto)]

pub mod mark_tree; // mark_tree.rt: a search tree for the marks of each list
pub mod marks; // marks.rt: cause 8
