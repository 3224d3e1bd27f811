// Numbers of a text, written and read.
#![tactic(auto)]

pub mod digits; // digits.rt: how many bytes a number is written with, and those bytes
pub mod number; // number.rt: the number that bytes are
