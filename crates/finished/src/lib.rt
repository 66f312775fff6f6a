// A finished plan, out of which every call makes what it answers. specs/ says what makes it the plan of a job, proofs/
// what follows for records and figures.
#![tactic(auto)]

ghost use Rattle.std.specs.Prelude.{◌≡◌, [], List, Ok, pos, replicate};
ghost use Rattle.rules.specs.Plan.{plan_numbers};
ghost use Rattle.rules.specs.Tables.{job_of, no_span};
ghost use Rattle.rules.specs.Told.{plan_answer_told};
ghost use Rattle.rules.specs.declared.Link.{Link as AnyLink};
ghost use Rattle.finished.specs.Finished.{Finished};

use arrayvec::ArrayVec;
use output::figures::{largest_finish, worst_lateness};
use rules::{Piece, PlanFigures, Run, Span};

/// A plan in fixed memory, with room for as many pieces and runs as a job may have.
// Spans and latest moments are two tables: the latest moments are made before there is a plan, and the block sheet makes
// its entries of them alone.
#[derive(Debug, Drop)]
pub struct Plan {
    /// For each piece, when it is worked on.
    pub spans: [Span; 256],
    /// For each piece, its latest moment.
    pub latests: [i32; 256],
    /// The runs of all desks, in the order in which they begin.
    pub runs: ArrayVec<Run, 512>,
}

impl Plan {
    /// The plan of no pieces.
    pub fn new() -> Plan
        ensures spans { result.spans ≡ replicate 256 no_span }
        ensures latests { result.latests ≡ replicate 256 (pos 0) }
        ensures runs { result.runs.items ≡ [] }
    {
        Plan {
            spans: [Span::default(); 256],
            latests: [0; 256],
            runs: ArrayVec::new(),
        }
    }
    /// The figures of a finished plan of these pieces.
    pub fn figures(&self, pieces: &[Piece]) -> PlanFigures
        requires { (links : List AnyLink) × Finished (job_of pieces.now links) self.now }
        ensures { (links : List AnyLink) → Finished (job_of pieces.now links) self.now
            → plan_answer_told (Ok result) ≡ plan_numbers (job_of pieces.now links) }
    {
        PlanFigures {
            pieces: pieces.len() as u32,
            runs: self.runs.len() as u32,
            end: largest_finish(pieces.len(), &self.spans),
            worst: worst_lateness(pieces.len(), &self.spans, &self.latests),
        }
    }
}
