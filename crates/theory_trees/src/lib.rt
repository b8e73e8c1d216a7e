// Specs alone: what follows from the definitions of trees, reach, value equality and broken keys (crate `meaning`).
#![tactic(auto)]
