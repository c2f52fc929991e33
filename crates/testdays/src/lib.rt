// Any number of failovers as firmware sees it through the library: definitions and laws alone (specs/).
#![tactic(auto)]
