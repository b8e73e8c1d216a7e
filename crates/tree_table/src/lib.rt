// Nodes off the bytes of an accepted tree.
#![tactic(auto)]

pub mod fields;
