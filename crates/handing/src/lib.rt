// What a finished piece hands over: its links are passed, who waits for none any more is open, and the finished piece is
// taken out of the open ones.
#![tactic(auto)]

pub mod job;
pub mod open;
