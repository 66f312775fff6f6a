// The public call of the block sheet of one desk.
#![tactic(auto)]

pub mod sheet;
