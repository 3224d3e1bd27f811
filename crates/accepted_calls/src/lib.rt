// Called programs: from what legality says of a table's functions and calls to what runs and translations ask of them. Theorems alone, in
// specs/.
#![tactic(auto)]
