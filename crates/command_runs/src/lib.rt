// What the runs print.
#![tactic(auto)]

mod previews; // previews.rt: previews a program, and writes the lines
pub mod tasks; // tasks.rt: what the runs, from zeros or a store file, and the previews print
