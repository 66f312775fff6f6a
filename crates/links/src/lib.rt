// The links of a job walked: the links from one piece chained together, and the ring check with the
// order that it finds.
#![tactic(auto)]

pub mod chains;
pub mod delay;
pub mod queue;
pub mod rings;
