// The history rule and the core engine: definitions and laws in specs/, no code.
#![tactic(auto)]
