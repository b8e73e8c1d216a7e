// Keys near a question that follow from the profile (the page of `advise`): candidates are put together here, and decided by `op_decide` alone.
#![tactic(auto)]

pub mod advice;
pub mod candidates;
pub mod keys;
