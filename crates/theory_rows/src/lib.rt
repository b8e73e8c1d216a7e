// Tests of the definitions, computed by the prover: the bench examples a to m of document 01 as one table, words, the tree of example b.
// This crate has no code.
#![tactic(auto)]
