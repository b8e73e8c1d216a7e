// ARGUMENT 4 and 5: the steps on lines of symbols, the proof that is written, and why it is accepted. This crate has no code.
#![tactic(auto)]
