// The lines of an accepted proof, for the trimming pass: where each stands, and the earliest with its key.
#![tactic(auto)]

pub mod firsts;
pub mod stands;
