// Names inside a block, Change 11: definitions and laws alone, in specs/.
#![tactic(auto)]
