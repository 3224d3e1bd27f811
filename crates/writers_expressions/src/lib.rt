// The writers of expressions.
#![tactic(auto)]

use writers_rows::KernelAtom;

pub mod branches; // branches.rt: what and, or and a conditional choose between
pub mod expressions; // expressions.rt: the operands' code, and then what the expression does with their values

// How a branch ends: its atom goes into the result's temporary, as a truth value or as it is; or it is there already.
#[derive(Clone, Copy)]
pub enum End {
    Truth,
    Copy,
    Stays,
}

// A branch that and, or and a conditional choose: an expression, or none where the row is 0; its atom, and how it ends.
#[derive(Clone, Copy)]
pub struct Branch {
    pub row: usize,
    pub end: End,
    pub atom: KernelAtom,
}
