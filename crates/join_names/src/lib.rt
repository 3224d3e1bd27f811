// Joins of programs with declarations: definitions and laws alone, in specs/.
#![tactic(auto)]
