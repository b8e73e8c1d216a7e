// Of each key of a profile whether it stays: the records of those that stay, and the numbers of those that do not.
// Stays: buffer and place go in and the next place comes out, because a struct that holds the `&mut` owes in each function that it holds it still, and is
// no plainer.
#![tactic(auto)]

pub mod numbers;
pub mod records;
