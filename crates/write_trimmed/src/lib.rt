// The bytes of a trimmed proof: the lines that stay, with their premises renumbered.
// Stays: buffer and place go in and the next place comes out, because a struct that holds the `&mut` owes in each function that it holds it still, and is
// no plainer.
#![tactic(auto)]

pub mod puts;
