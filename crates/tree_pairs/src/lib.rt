// Value-equal pairs below two nodes: "A tree keeps the key if .. some P in S has no value-equal pair x, y with x reached from a and y from b by P".
#![tactic(auto)]

pub mod memo;
pub mod pairs;
pub mod reach;
