// The block sheet of one desk, by the rule of the page's section on it, from a finished plan.
#![tactic(auto)]

pub mod own;
pub mod planned;
