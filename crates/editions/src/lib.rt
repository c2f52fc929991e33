// Definitions and laws of the editions of the event prefix (document 02, T-12).
#![tactic(auto)]
