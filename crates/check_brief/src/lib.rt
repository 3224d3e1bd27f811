// Both checks by tests that cost less to compute. Definitions and laws alone, in specs/.
#![tactic(auto)]
