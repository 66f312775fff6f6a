// The public call of the writer: a form of pieces and links is judged row by row, and then its job file is written.
#![tactic(auto)]

pub mod file;
