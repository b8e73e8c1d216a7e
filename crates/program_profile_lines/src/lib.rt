// A profile's text, line by line: each line to its record behind those that were made before it. Nothing that decides anything stands here: what the
// records say is judged by the reader of profiles, and a key line is read by `op_read_line`.
#![tactic(auto)]

pub mod lines;
pub mod words;
