// The rows of a tree: definitions alone, in specs/. Other crates' promises cite them.
#![tactic(auto)]
