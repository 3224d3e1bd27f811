// What the command is asked: its arguments, what came of reading for them, and the words of a store file.
#![tactic(auto)]

pub mod request; // request.rt: what the arguments ask for
pub mod store_file; // store_file.rt: the words of a store file

// What came of reading standard input, or the file that is named: nothing was to be read, or so many bytes were, or none could be.
#[derive(Clone, Copy, PartialEq, Eq)]
pub enum Input {
    Absent,
    Bytes(usize),
    Unreadable,
}
