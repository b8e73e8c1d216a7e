// Request 10: theorems on trimmed proofs. This crate has no code.
#![tactic(auto)]
