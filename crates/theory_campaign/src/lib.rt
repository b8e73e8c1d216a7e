// Request 12: theorems on counting over a campaign. This crate has no code.
#![tactic(auto)]
