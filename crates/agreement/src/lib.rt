// The slow twin's blocks answer as the first engine's do: specs/, no code.
#![tactic(auto)]
