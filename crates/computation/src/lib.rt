// Computations, limits and their laws: definitions alone, in specs/. Other crates' promises cite them.
#![tactic(auto)]
