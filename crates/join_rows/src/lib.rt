// The rows of a join in code: which rows of a program are those of its definitions, where each row stands in the join, and its words there.
#![tactic(auto)]

pub mod parts; // parts.rt: the rows of definitions, and those at the front
pub mod placed; // placed.rt: the words of a row at its new place
pub mod rows; // rows.rt: the joined rows, written into a table

// The definitions at the front of a program: how many functions there are, and the item behind them.
#[derive(Clone, Copy)]
pub struct Front {
    functions: usize,
    item: usize,
}

// Where a program stands in a join: the rows at which those of its definitions begin, and its others; how many functions come before its own;
// the item of the new block behind its definitions, and the one behind its own block; and the first item of that block, at its old row.
#[derive(Clone, Copy)]
pub struct Standing {
    definitions: usize,
    others: usize,
    functions: usize,
    behind: usize,
    after: usize,
    item: usize,
}
