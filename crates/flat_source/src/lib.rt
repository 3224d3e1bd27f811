// A source program and the flat list of its translation share their fate: definitions and theorems, in specs/.
#![tactic(auto)]
