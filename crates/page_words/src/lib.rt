// What the words of a page's line say (docs/PAGES.md): its statement's bytes, without the blanks around them, are read as a line. The types
// alone; definitions and laws stand in specs/.
#![tactic(auto)]

use words::Operator;

// The names that a page can have: variables and arrays by the header, declared words, l from 0, and temporaries, t from 0.
#[derive(Clone, Copy)]
pub struct Names {
    pub variables: u32,
    pub declared: u32,
    pub temporaries: u32,
    pub arrays: u32,
}

#[derive(Clone, Copy)]
pub enum PageAtom {
    Constant(i32),
    Variable(u32),
    Declared(u32),
    Temporary(u32),
}

// What is assigned; a call here has no arguments.
#[derive(Clone, Copy)]
pub enum Value {
    Single(PageAtom),
    Element(u32, PageAtom),
    Minus(PageAtom),
    Binary(Operator, PageAtom, PageAtom),
    Call(u32),
}

// What a line says. `Store` assigns to a name, `Put` to an element. Functions are told by their number, parameters by their declared word.
#[derive(Clone, Copy)]
pub enum LineContent {
    Empty,
    Abort,
    Goto(u32),
    Label(u32),
    Store(PageAtom, Value),
    Put(u32, PageAtom, PageAtom),
    Opens,
    While(PageAtom),
    If(PageAtom),
    Turns,
    Closes,
    Return(PageAtom),
    OpensCall(PageAtom, u32),
    Argument(PageAtom),
    LastArgument(PageAtom),
    OpensFunction(u32),
    OpensParameters(u32),
    Parameter(u32),
    LastParameter(u32),
}
