// The records of a plan, 16 bytes each, written into a lent buffer; and the runs of one desk handed back as a part of
// the caller's own records.
#![tactic(auto)]

pub mod lent;
pub mod put;
pub mod stretch;
