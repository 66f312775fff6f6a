// The block method: sets cut into blocks and blocks solved, on one desk's entries and a board of runs.
#![tactic(auto)]

pub mod sets;
