// Sessions and failover, over any engine: definitions and laws alone (specs/).
#![tactic(auto)]
