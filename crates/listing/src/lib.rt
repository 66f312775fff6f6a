// The text that deskplan prints, page by page into a lent buffer, out of the tables of a finished plan.
#![tactic(auto)]

pub mod pages;
