// ARGUMENT §4: the pattern of the asked key, its rows and its nodes by number. This crate has no code.
#![tactic(auto)]
