// The legality of emitted tables: definitions and theorems alone, in specs/.
#![tactic(auto)]
