// Definitions and laws alone: images of earlier formats, and what they become.
#![tactic(auto)]
