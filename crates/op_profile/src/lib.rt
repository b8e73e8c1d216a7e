// Of the public operations (document 01, "What the work covers") rewriting, bodies and inclusion. None has a `requires`: each takes arbitrary bytes
// and refuses by the numbered table. What each must answer is `meaning`'s definition of the operation, read through the cases of `op_answers`.
#![tactic(auto)]

pub mod inclusions;
pub mod profiles;
