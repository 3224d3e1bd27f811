// The causes that functions add to the checks of both forms, Change 13: definitions and laws alone, in specs/.
#![tactic(auto)]
