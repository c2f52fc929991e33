// No line has more words than the room of an output: definitions and laws alone.
#![tactic(auto)]
