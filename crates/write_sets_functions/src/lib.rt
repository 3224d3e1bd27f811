// The functions of a program: their definitions, and what each of them can write, found by walks down the links of its block.
#![tactic(auto)]

use write_sets::WriteSet;

pub mod definitions; // definitions.rt: the definitions and parameters at a list's rows
pub mod expressions; // expressions.rt: what an expression can write
pub mod functions; // functions.rt: what each function can write
pub mod statements; // statements.rt: what a statement can write
pub mod steps; // steps.rt: what a statement's own row writes, and the links at which more is written

// What a statement writes: what its own row does, and what is written at its links, of which 0 is absent: up to three expressions, two
// statements, a list of items, and arms.
#[derive(Clone, Copy)]
pub struct Step {
    pub own: WriteSet,
    pub first: usize,
    pub second: usize,
    pub third: usize,
    pub body: usize,
    pub other: usize,
    pub list: usize,
    pub arms: usize,
}

// The links of an arm, of which 0 is absent: its guard, its block, and the arm behind it.
#[derive(Clone, Copy)]
pub struct ArmLinks {
    pub guard: usize,
    pub body: usize,
    pub next: usize,
}
