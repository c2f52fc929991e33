// Laws of one step of the model. They are in specs/; there is no code.
#![tactic(auto)]
