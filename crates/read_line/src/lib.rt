// A whole line: what it is refused for, or the key's record.
#![tactic(auto)]

pub mod line;
pub mod parts;
