// The printer of kernel pages: how many lines a table has, and the page.
#![tactic(auto)]

pub mod assignments; // assignments.rt: which lines an expression statement has
pub mod functions; // functions.rt: the lines of arguments and parameters
pub mod items; // items.rt: which lines an item has of its own
pub mod lists; // lists.rt: the lines of lists
pub mod pages; // pages.rt: the page of a table
pub mod sizes; // sizes.rt: how many lines

use page_line::LineAt;

// Which lines an item has of its own: one; one before a block and the closing one; one before each of two blocks, and the closing one;
// one, and those of arguments; those of a definition, before its block and the closing one. A block is told by its row; arguments by the row
// of the first one's expression and the link behind it; a definition by its number, the link to its parameters and its block. What the kernel
// does not have has no lines.
#[derive(Clone, Copy)]
pub enum Outline {
    Single(LineAt),
    Enclosed(LineAt, usize),
    Split(LineAt, usize, usize),
    Called(LineAt, usize, usize),
    Defined(usize, usize, usize),
    Nothing,
}
