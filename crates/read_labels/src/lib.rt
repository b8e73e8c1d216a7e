// Labels of an accepted profile, looked up in its bytes: the names of a typed line.
#![tactic(auto)]

pub mod first;
pub mod named;
