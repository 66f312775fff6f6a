// A job file judged for itself: read, and refused for a ring. What is left to each call is its own judgement of the
// desk asked for and of the lent buffer.
ghost use Rattle.std.specs.Prelude.{◌≡◌, OnOk, replicate};
ghost use Rattle.rules.specs.Judgement.{file_outcome};
ghost use Rattle.moments.specs.Moments.{ToTime};
ghost use Rattle.reader.specs.Outcome.{outcome_told};

use links::rings::{Walk, ring_check};
use reader::{Job, read_job};
use rules::fault::{Fault, Refusal};

/// A job file into a job, whatever that held before, and its links into a walk; or the refusal, and what the job and
/// the walk then hold is of no use.
pub fn judge_file(file: &[u8], job: &mut Job, walk: &mut Walk) -> Result<(), Refusal>
    requires { walk.old.chains.last ≡ replicate 256 0 }
    ensures outcome { file_outcome file.now ≡ outcome_told result job.new }
    ensures walkable { OnOk result (ToTime job.new.pieces.items job.new.links.items walk.new) }
{
    read_job(file, job)?;
    ring_check(job.pieces.len(), &job.links, walk).map_err(|piece| Refusal {
        fault: Fault::Ring,
        place: piece as u64,
    })
}
