// Numbers, atoms and elements of a page by their bytes.
#![tactic(auto)]

pub mod atoms; // atoms.rt: numbers, atoms and elements
pub mod compare; // compare.rt: whether bytes stand in others
