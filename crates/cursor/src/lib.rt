// One record of a job file at a time: the answer for the record at a place of the file, and the reader that keeps the
// file and its place in it together.
#![tactic(auto)]

pub mod items;
pub mod reading;
