// Request 1: theorems on keys in plain text. This crate has no code.
#![tactic(auto)]
