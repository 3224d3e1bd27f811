// Which variables the code of each source row can write.
#![tactic(auto)]

pub use write_sets::WriteSet;

pub mod arguments; // arguments.rt: what the arguments of a call can write
pub mod reaches; // reaches.rt: what an expression's own row writes, and the links at which more is written
pub mod table; // table.rt: the sets in a table
pub mod writes; // writes.rt: the write sets of the rows

// What an expression writes: what its own row does, and what is written at its links, of which 0 is absent: up to three expressions, and the
// first argument of a call.
#[derive(Clone, Copy)]
pub struct Reach {
    pub own: WriteSet,
    pub first: usize,
    pub second: usize,
    pub third: usize,
    pub arguments: usize,
}
