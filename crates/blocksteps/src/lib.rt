// The steps of the block method on one desk's entries: slots given away on the board, the first block of a set, and who
// is set aside of a block.
#![tactic(auto)]

pub mod aside;
pub mod board;
pub mod gather;
