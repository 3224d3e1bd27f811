// Legal kernel programs: what a table that the kernel check accepts gives to its users. Theorems alone, in specs/.
#![tactic(auto)]
