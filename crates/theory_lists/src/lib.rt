// Small facts on truth values, lists and the order of paths. This crate has no code.
#![tactic(auto)]
