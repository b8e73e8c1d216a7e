// Request 14: every answer fits the fields of the details, and C reads the answer back. This crate has no code.
#![tactic(auto)]
