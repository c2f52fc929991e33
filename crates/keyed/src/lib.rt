// Rows of monitors of a key (document 02, T-03): specs/ alone. They stand apart from the model, since the checker
// runs the cipher for them.
#![tactic(auto)]
