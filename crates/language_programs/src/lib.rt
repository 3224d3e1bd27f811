// What a program means: the run of the table in which every name stands for its store word. Definitions and laws alone, in specs/; other
// crates' promises cite them.
#![tactic(auto)]
