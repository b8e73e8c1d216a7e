// One record of an input, judged at the front of what is left of it (document 01, "Refusal numbers"): a label, a key, a proof line.
#![tactic(auto)]

pub mod keys;
pub mod labels;
pub mod repeats;
