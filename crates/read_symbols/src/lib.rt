// The symbols of a path's text: "labels joined by dots, `_*` for the any-path, `#` for text, `@` before attribute names".
#![tactic(auto)]

pub mod errors;
pub mod path;
pub mod symbol;
