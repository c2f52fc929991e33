// The proof that the core engine keeps to the history rule: specs/, no code.
#![tactic(auto)]
