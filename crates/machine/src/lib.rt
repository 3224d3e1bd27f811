// The machine: the core that walks rows, one for both forms.
#![tactic(auto)]

pub mod whole; // whole.rt: the run of a program
