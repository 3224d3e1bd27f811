// Joins: two source programs one behind the other, as one. Definitions and laws alone, in specs/.
#![tactic(auto)]
