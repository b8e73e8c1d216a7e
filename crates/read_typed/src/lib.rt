// The set of a typed key: its paths, put into record order as they come.
#![tactic(auto)]

pub mod set;
