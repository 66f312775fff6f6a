// What the block sheet says besides the runs: the blocks of the first cutting and the worst lateness.
#![tactic(auto)]

pub mod table;
