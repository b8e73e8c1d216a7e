// A proof that the check accepts, "a numbered line each, the key, the rule by its name and what it was taken from". The keys' texts are answers of
// `op_proof_line`.
#![tactic(auto)]

pub mod lines;
pub mod reasons;
