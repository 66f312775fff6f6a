// Out of the tables of a finished plan: the result and run records in the lent buffer, and the figures of the answer.
#![tactic(auto)]

pub mod chains;
pub mod figures;
pub mod results;
pub mod runs;
