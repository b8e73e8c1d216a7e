// Definitions only: what a reader of Culvertecho has to believe stands in specs/, in the words and the order of document 01.
// This crate has no code.
#![tactic(auto)]
