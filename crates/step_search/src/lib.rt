// ARGUMENT §4: "Leads to q, computed downwards". The steps that profile keys let the asked key's pattern take, over its rows of symbols,
// and the u where they end.
#![tactic(auto)]

pub mod firing;
pub mod search;
