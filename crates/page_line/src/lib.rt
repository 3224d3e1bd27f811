// One line of a page, laid into the page at its place: its number, its indent, what it says, blanks and the newline.
#![tactic(auto)]

pub mod bytes; // bytes.rt: bytes, blanks, numbers and names
pub mod contents; // contents.rt: what each line says
pub mod expressions; // expressions.rt: atoms, places and values
pub mod functions; // functions.rt: calls, definitions and returns
pub mod shapes_at; // shapes_at.rt: what stands at a row of a table of either form
pub mod whole; // whole.rt: the whole line

use language_shapes::MarkShape;

// What a line says. Expressions and places are told by their row, functions by their number, parameters by their word; 0 is no expression
// of a return.
#[derive(Clone, Copy)]
pub enum LineAt {
    Empty,
    Express(usize),
    Goto(usize),
    Abort,
    Mark(MarkShape),
    Opens,
    While(usize),
    If(usize),
    Turns,
    Closes,
    Return(usize),
    OpensCall(usize, usize),
    Argument(usize),
    LastArgument(usize),
    OpensFunction(usize),
    OpensParameters(usize),
    Parameter(usize),
    LastParameter(usize),
}
