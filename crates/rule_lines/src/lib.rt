// Whether a whole proof is accepted ("Rules of inference"), over the bytes where they stand: no part of a proof is copied.
#![tactic(auto)]

pub mod check;
