// The lines of an accepted proof that stay when it is trimmed, and their new numbers.
#![tactic(auto)]

pub mod marks;
pub mod numbers;
