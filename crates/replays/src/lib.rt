// Replay of a journal's text into one lent output, in pieces of any size. Definitions and laws are in specs/; there
// is no code.
#![tactic(auto)]
