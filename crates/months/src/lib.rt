// What a journal counts for each handle: definitions and claims alone (specs).
#![tactic(auto)]
