// Leaves: kernel rows that are written by themselves.
#![tactic(auto)]

pub mod assignments; // assignments.rt: the assignments of the kernel
pub mod control; // control.rt: rows that say where a run goes on: blocks, ifs, loops, labels, gotos
pub mod guarded; // guarded.rt: the rows of the guarded forms, beside the code of their guards and blocks
pub mod rows; // rows.rt: what all rows are put together by

// "An atom is a constant or variable."
#[derive(Clone, Copy)]
pub enum KernelAtom {
    Constant(i32),
    Variable(usize),
}

// A place in the kernel: a variable, or an element with an atom index.
#[derive(Clone, Copy)]
pub enum KernelPlace {
    Variable(usize),
    Element(usize, KernelAtom),
}
