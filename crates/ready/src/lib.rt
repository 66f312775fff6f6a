// Raised ready moments of all pieces out of a finished plan.
#![tactic(auto)]

pub mod raise;
