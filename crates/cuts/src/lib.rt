// A journal's rows, and those of its two parts joined: laws and claims alone (specs).
#![tactic(auto)]
