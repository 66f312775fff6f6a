// What the block sheet says of a block. No function stands here: specs/ says how the block method fills a board of
// stretches, and proofs/ that the board holds what the rules' block method works on.
#![tactic(auto)]

/// A block of the first cutting: the count of its pieces, its first slot, and one past its last.
#[derive(Clone, Copy, Debug, Default, PartialEq, Eq)]
pub struct BlockRow {
    pub count: u16,
    pub from: u32,
    pub end: u32,
}
