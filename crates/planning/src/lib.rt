// From a job file to its finished plan, or its refusal: the file judged, the plan finished, and both in one.
#![tactic(auto)]

pub mod file;
pub mod finishing;
pub mod judged;
