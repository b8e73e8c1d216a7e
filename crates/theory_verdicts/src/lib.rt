// 001, Theorems 1 and 2, and 01's bench examples: what is implied, over all finite trees. This crate has no code.
#![tactic(auto)]
