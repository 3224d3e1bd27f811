// Demand 3 about rows and words: definitions and theorems, in specs/.
#![tactic(auto)]
