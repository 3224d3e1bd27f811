// The causes that declarations add to the check, Change 11: definitions and laws alone, in specs/.
#![tactic(auto)]
