// The pages of legal kernel tables: theorems alone, in specs/.
#![tactic(auto)]
