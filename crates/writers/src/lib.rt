// Writers: the code that writes the rows of a translation. The output table's part from the free row is lent on to each construct's
// writer; the table of measures says beforehand how many rows each takes.
#![tactic(auto)]

pub mod blocks; // blocks.rt: the writers of blocks, lists and items
pub mod declarations; // declarations.rt: the writer of declarations
pub mod guarded; // guarded.rt: the writers of the guarded forms
pub mod lists; // lists.rt: what statements, items, lists and arms take, by the table of measures
pub mod loops; // loops.rt: the writers of loops and of their parts
pub mod returns; // returns.rt: the writer of returns
pub mod statements; // statements.rt: the writers of statements and ifs
pub mod switches; // switches.rt: the writers of switches and of their tests

// The labels to which break and continue go.
#[derive(Clone, Copy)]
pub struct Exits {
    pub breaking: usize,
    pub continuing: usize,
}

// Where the code of a statement stands: from the row `base` on, its labels from `label` on, with the labels to which break and continue go.
#[derive(Clone, Copy)]
pub struct StatementPosition {
    pub exits: Exits,
    pub label: usize,
    pub base: usize,
}

// The parts of a loop, by their rows; 0 is absent. `before` is tested before the body, `after` behind it.
#[derive(Clone, Copy)]
pub struct Loop {
    pub first: usize,
    pub before: usize,
    pub body: usize,
    pub action: usize,
    pub after: usize,
}
