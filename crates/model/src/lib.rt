// The model: every rule of document 01 as a definition. The definitions are in specs/; there is no code.
#![tactic(auto)]
