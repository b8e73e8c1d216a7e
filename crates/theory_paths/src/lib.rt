// Theorems only: ARGUMENT §1, words and paths. This crate has no code.
#![tactic(auto)]
