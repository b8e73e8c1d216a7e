// What is laid out around the answers of the operations: parts of a file that was accepted, the names of a profile's labels, columns. Nothing that
// decides anything stands here. Every function takes arbitrary bytes: a part that is not there is empty, and a byte that is not there is 0.
#![tactic(auto)]

pub mod columns;
pub mod names;
pub mod parts;
