// The answers of the command, as bytes: what is printed for a request, a text and a file.
#![tactic(auto)]

pub mod answer; // answer.rt: what is printed for a request
