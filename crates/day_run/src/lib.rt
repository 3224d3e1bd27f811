// What a day does to a rule's store: a line, and any list of lines.
#![tactic(auto)]

pub mod line; // line.rt: one line, on a copy of the store
pub mod lines; // lines.rt: the lines of a day, one after the other

// How many lines ended plainly, and how many did not.
#[derive(Clone, Copy)]
pub struct Tally {
    pub plain: usize,
    pub other: usize,
}
