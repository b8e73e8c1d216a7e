// What the program `test_replay` stands on: the cases that it reads, and the answer buffer that it lends to the operations. Nothing here knows an operation.
#![tactic(auto)]

pub mod cases;
pub mod lent;
pub mod segments;
