// Demand 3 restated over what the calls say. It is in specs/; there is no code.
#![tactic(auto)]
