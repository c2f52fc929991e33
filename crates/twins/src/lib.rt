// The slow twin as a machine, and that it answers as the first engine does: specs/, no code.
#![tactic(auto)]
