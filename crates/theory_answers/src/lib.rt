// Theorems about the operations' definitions: at most one answer meets each. This crate has no code.
#![tactic(auto)]
