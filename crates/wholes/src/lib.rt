// The whole block of a state: the core, and behind it the index by device. It is in specs/; there is no code.
#![tactic(auto)]
