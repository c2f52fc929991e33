// The claims of demand 3 over the model. They are in specs/; there is no code.
#![tactic(auto)]
