// One desk's entries in a slice that the calling part lends: thin functions over it, and the slice put in order.
#![tactic(auto)]

pub mod list;
pub mod sorting;
