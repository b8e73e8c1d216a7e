// The lines of one remembered step, written into a lent buffer: ARGUMENT, section 5.
// Stays: buffer and place go in and the next place comes out, because a struct that holds the `&mut` owes in each function that it holds it still, and is
// no plainer.
#![tactic(auto)]

pub mod branch;
pub mod chain;
pub mod single;
