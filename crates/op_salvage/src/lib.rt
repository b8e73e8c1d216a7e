// Salvage of a damaged tree file.
#![tactic(auto)]

pub mod salvage;
