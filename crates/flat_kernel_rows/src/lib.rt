// The rows of a legal kernel program: what stands at each, and what the whole table gives. Theorems alone, in specs/.
#![tactic(auto)]
