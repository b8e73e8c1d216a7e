// The rules of inference ("Rules of inference") on key bodies where they stand: one function for each rule of a premise, equal
// to its test in `theory_rule_tests`. Joins are compared without being built.
#![tactic(auto)]

pub mod rules;
pub mod sets;
