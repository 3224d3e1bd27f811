// What a program can write: the variables, the declared words and the arrays, a bit each, by its rows.
#![tactic(auto)]

use write_sets::WriteSet;

pub mod arguments; // arguments.rt: which arrays the arguments of a call can write an element of
pub mod arrays; // arrays.rt: which arrays the expression at each row can write an element of
pub mod operands; // operands.rt: the expressions at an expression's links
pub mod program; // program.rt: what any row of a program can write
pub mod table; // table.rt: the words of the table of arrays

// The links of an expression, of which 0 is absent: up to three expressions, the place that it stores to, and the first argument of a call.
#[derive(Clone, Copy)]
pub struct Links {
    pub first: usize,
    pub second: usize,
    pub third: usize,
    pub place: usize,
    pub arguments: usize,
}

// The variables in four 64-bit words, the declared words in a fifth, the arrays in one 32-bit word.
#[derive(Clone, Copy)]
pub struct Writes {
    pub variables: WriteSet,
    pub arrays: u32,
}
