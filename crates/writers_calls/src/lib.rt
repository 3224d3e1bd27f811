// The writers of a call on what holds its arguments: `variable := f(atoms)`. Which arguments are copied are the binary digits of a number, the
// first argument's lowest.
#![tactic(auto)]

pub mod arguments; // arguments.rt: the arguments of a call, and the temporaries that they take
pub mod called; // called.rt: what a call's row says
pub mod calls; // calls.rt: the call on what holds its arguments

// What a call's row says: the number of its function, and the row of its first argument, or 0.
#[derive(Clone, Copy)]
pub struct CallRow {
    pub function: usize,
    pub first: usize,
}
