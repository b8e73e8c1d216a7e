// A line cut into the texts of its paths ("one key a line"), without a copy of them.
#![tactic(auto)]

pub mod cut;
