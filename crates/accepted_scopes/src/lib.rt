// The scope of names in an accepted program: definitions and laws alone, in specs/.
#![tactic(auto)]
