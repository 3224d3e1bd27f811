// The rules of crate language are accepted by the checks. Theorems alone, in specs/.
#![tactic(auto)]
