// The rows are specifications alone: see specs.
#![tactic(auto)]
