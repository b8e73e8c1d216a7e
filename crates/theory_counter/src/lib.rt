// ARGUMENT §6: the written tree is a counterexample. This crate has no code.
#![tactic(auto)]
