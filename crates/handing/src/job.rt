// A job as the steps of its plan see it.
use links::chains::Chains;
use rules::{Link, Piece};

/// The pieces and the links of a job, with the links chained.
#[derive(Clone, Copy)]
pub struct Job<'a> {
    pub pieces: &'a [Piece],
    pub links: &'a [Link],
    pub chains: &'a Chains,
}
