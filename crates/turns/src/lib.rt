// Definitions and laws alone: the texts that a takeover writes, and a takeover in turns.
#![tactic(auto)]
