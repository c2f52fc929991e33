// The laws that join the abstract state and its block of octets. The laws are in specs/; there is no code.
#![tactic(auto)]
