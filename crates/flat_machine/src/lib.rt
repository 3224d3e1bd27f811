// The machine of flat lists.
#![tactic(auto)]

pub mod whole; // whole.rt: the run of a list
