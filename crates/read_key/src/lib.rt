// The tests 4, 5 and 6 of a key in its body (document 01, "Refusal numbers"), with the profile's labels as a class table
// (0: not declared, 1: element, 2: attribute). Equal to `key_tests` of `meaning` under `Tabled` (crate `read_record`, specs/Tables).
#![tactic(auto)]

pub mod order;
pub mod refusal;
pub mod symbols;
pub mod validity;
