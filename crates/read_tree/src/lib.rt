// A tree file judged from the front: document 01, refusal 8, and "In each input its size, then records from the front".
#![tactic(auto)]

pub mod nodes;
pub mod tree;
