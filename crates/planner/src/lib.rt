// The public call of the plan: result and run records in the lent buffer. Everything is judged before the first byte is
// written.
#![tactic(auto)]

ghost use Rattle.rules.specs.Told.{plan_answer_told};
ghost use Rattle.demands.specs.Promises.{PlanPromise};

use finished::Plan;
use plan_answer::answer_plan;
use planning::file::plan_file;
use reader::Job;
use rules::PlanFigures;
use rules::fault::Refusal;

/// THE PLAN: takes every file and every lent buffer, and answers with the figures of the plan or with a refusal on the
/// list.
pub fn plan(file: &[u8], buffer: &mut [u8]) -> Result<PlanFigures, Refusal>
    ensures { PlanPromise file.now buffer.old (plan_answer_told result) buffer.new }
{
    let mut job = Job::new();
    let mut plan = Plan::new();
    plan_file(file, &mut job, &mut plan)?;
    answer_plan(&job.pieces, &plan, buffer)
}
