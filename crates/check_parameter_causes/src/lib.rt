// The cause 19 for the parameters of a function and the declarations of its block, Change 13: definitions and laws alone, in specs/.
#![tactic(auto)]
