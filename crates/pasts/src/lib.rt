// What past frames alone say of watching, and that the engine of document 01 holds just that: specs/, no code.
#![tactic(auto)]
