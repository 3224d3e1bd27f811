// Cause 13 of the kernel check: a goto without its label ahead, or a label repeated.
#![tactic(auto)]

pub mod chains; // chains.rt: the gotos and labels of one label number, in order
pub mod labels; // labels.rt: cause 13, one label number at a time
pub mod notes; // notes.rt: the first row of each row's list, and its owner

// What a pass along the links notes of each row.
#[derive(Clone, Copy)]
pub enum LabelNote {
    // the first row of its list
    First,
    // the row whose part it is, or whose list it stands in
    Owner,
}
