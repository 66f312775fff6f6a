// One desk's entries in order.
#![tactic(auto)]

pub mod order;
