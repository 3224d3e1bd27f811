// What a statement's answer says, and where a list goes on. An answer is one number, since structs and enums come back through memory
// (docs/PERFORMANCE.md): flows.rt says what it means.
#![tactic(auto)]

pub mod calls; // calls.rt: the rows of arguments and parameters
pub mod flows; // flows.rt: what a statement's answer says
pub mod functions; // functions.rt: the rows of functions as a list
pub mod lists; // lists.rt: where a list goes on: the search for a mark

// How a statement ended, as an answer, where it seeks no label and the run goes on.
pub const NEXT: i64 = -1;

pub const BREAK: i64 = -2;

pub const CONTINUE: i64 = -3;

// The answer of a goto whose label no row can have.
pub const NO_LABEL: i64 = -4;

// The answer of a return of 0; that of another value lies as far from it.
pub const RETURN: i64 = 8589934592;

// How a statement ended: the next item follows; a break, a continue, the search for a label or a return is under way; or the run stops
// there.
#[derive(Clone, Copy)]
pub enum Flow {
    Next,
    Break,
    Continue,
    Goto(usize),
    Return,
    Halted,
}

// What is sought in a list.
#[derive(Clone, Copy)]
pub enum SoughtMark {
    Case(i32),
    Default,
    Label(usize),
}
