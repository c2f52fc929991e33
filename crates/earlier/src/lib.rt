// Theorems on definitions of other crates that the code once rested on. It goes other ways now; each still holds. There
// is no code.
#![tactic(auto)]
