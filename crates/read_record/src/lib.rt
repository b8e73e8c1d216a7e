// The leaf functions that read one record (document 01, "Records"), each equal to the definition of `meaning` that it decides.
#![tactic(auto)]

pub mod bodies;
pub mod classes;
pub mod fields;
pub mod key;
pub mod keys;
pub mod limits;
pub mod names;
