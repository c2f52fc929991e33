// Theorems restated, and nothing else: what is shown, on one page.
#![tactic(auto)]
