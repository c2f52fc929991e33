// The laws of the image's text. They are in specs/; there is no code.
#![tactic(auto)]
