// The definitions of FIPS 197 and their laws: specs/ alone.
#![tactic(auto)]
