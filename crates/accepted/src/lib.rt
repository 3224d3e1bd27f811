// Accepted tables: what a table that a check accepts gives to its users. Theorems alone, in specs/.
#![tactic(auto)]
