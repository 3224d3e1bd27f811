// The flat list of a kernel program, and equal fate: definitions and theorems, in specs/.
#![tactic(auto)]
