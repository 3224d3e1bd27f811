// The flat list: five words a line. Definitions and laws are in specs/.
#![tactic(auto)]

pub mod lines; // lines.rt: the words of a line, and what its operation and its distance say

// What a word of a line holds. An atom is a constant or a variable: the operation says which.
#[derive(Clone, Copy)]
pub enum Holds {
    Unused,
    Atom,
    Variable,
    Array,
}

// What the words of a line of one kind hold, and whether it jumps.
#[derive(Clone, Copy)]
pub struct LineShape {
    pub target: Holds,
    pub left: Holds,
    pub right: Holds,
    pub jumps: bool,
}
