// Whole inputs judged from the front (document 01, "Refusal numbers"): "In each input its size, then records from the front".
#![tactic(auto)]

pub mod profile;
pub mod question;
