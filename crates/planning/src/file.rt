// A job file planned: the walk, which only the planning needs, is made here, once for every call that starts from a
// file.
ghost use Rattle.std.specs.Prelude.{◌≡◌, OnOk};
ghost use Rattle.rules.specs.Judgement.{file_outcome};
ghost use Rattle.rules.specs.Tables.{job_of};
ghost use Rattle.reader.specs.Outcome.{outcome_told};
ghost use Rattle.finished.specs.Finished.{Finished};

use crate::finishing::finish_plan;
use crate::judged::judge_file;
use finished::Plan;
use links::rings::Walk;
use reader::Job;
use rules::fault::Refusal;

/// A job file into its job and the finished plan of it, whatever they held before; or the refusal of the file for
/// itself, and what the job then holds is of no use.
pub fn plan_file(file: &[u8], job: &mut Job, plan: &mut Plan) -> Result<(), Refusal>
    ensures outcome { file_outcome file.now ≡ outcome_told result job.new }
    ensures finished { OnOk result (Finished (job_of job.new.pieces.items job.new.links.items) plan.new) }
{
    let mut walk = Walk::new();
    judge_file(file, job, &mut walk)?;
    finish_plan(&job.pieces, &job.links, &walk, plan);
    Ok(())
}
