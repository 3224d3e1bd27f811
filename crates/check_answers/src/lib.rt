// What the checks answer of small programs. Tables and theorems alone, in specs/.
#![tactic(auto)]
