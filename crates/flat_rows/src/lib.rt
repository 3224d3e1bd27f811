// The flat list by rows: at which line each row of a legal kernel program stands, and which lines are its own. Theorems alone, in specs/.
#![tactic(auto)]
