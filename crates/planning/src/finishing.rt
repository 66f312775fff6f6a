// The finished plan of an accepted job, of which every call makes what it answers: latest moments first, since urgency
// asks for them, then the plan by urgency.
ghost use Rattle.rules.specs.Tables.{job_of};
ghost use Rattle.moments.specs.Moments.{ToTime};
ghost use Rattle.finished.specs.Finished.{Finished};

use finished::Plan;
use links::rings::Walk;
use moments::latest_moments;
use rules::{Link, Piece};

/// The finished plan of a job in place of what the plan held before.
pub fn finish_plan(pieces: &[Piece], links: &[Link], walk: &Walk, plan: &mut Plan)
    requires { ToTime pieces.now links.now walk.now }
    ensures { Finished (job_of pieces.now links.now) plan.new }
{
    latest_moments(pieces, links, walk, &mut plan.latests);
    urgency::plan(
        pieces,
        links,
        &walk.chains,
        &plan.latests,
        &mut plan.spans,
        &mut plan.runs,
    );
}
