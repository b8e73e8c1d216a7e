// ARGUMENT 7: what the decider writes meets the definition of deciding. This crate has no code.
#![tactic(auto)]
