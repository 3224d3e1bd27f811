// Programs whose words stand elsewhere in the store run alike: definitions and laws alone, in specs/.
#![tactic(auto)]
