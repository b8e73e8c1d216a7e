// What the lines and the graph of a tree that breaks a question share: its nodes by their numbers, the marks of the witness's nodes, and the key paths
// in plain text. Nothing that decides anything stands here. Every function takes arbitrary bytes.
#![tactic(auto)]

pub mod marks;
pub mod nodes;
pub mod paths;
pub mod shown;
