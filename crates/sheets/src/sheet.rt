// The block sheet of one desk of a job file: records of blocks and of runs in the lent buffer. Everything is judged before
// the first byte is written.
ghost use Rattle.std.specs.Prelude.{List, ◌≡◌, ℕ, length};
ghost use Rattle.rules.specs.Job.{accepted};
ghost use Rattle.rules.specs.Judgement.{file_outcome};
ghost use Rattle.rules.specs.Tables.{job_of};
ghost use Rattle.rules.specs.Told.{block_answer_told};
ghost use Rattle.demands.specs.Promises.{BlockPromise};
ghost use Rattle.moments.specs.Moments.{ToTime};

use arrayvec::ArrayVec;
use blocks::planned::planned_sheet;
use finished::Plan;
use links::rings::Walk;
use planning::finishing::finish_plan;
use planning::judged::judge_file;
use reader::Job;
use rules::fault::Refusal;
use rules::{BlockFigures, Link, Piece};
use sheet_answer::{answer_sheet, sheet_fault};

// An accepted job: 13 where there is no such desk, then 12 where the lent buffer is too short, and else the sheet. The plan of
// the whole job comes first; its runs are needed no longer when the block method begins, so its list takes the runs of that.
fn sheet_accepted(
    pieces: &[Piece],
    links: &[Link],
    walk: &Walk,
    desk: u8,
    buffer: &mut [u8],
) -> Result<BlockFigures, Refusal>
    requires walkable { ToTime pieces.now links.now walk.now }
    requires some_file { (file : List ℕ) × (file_outcome file ≡ accepted (job_of pieces.now links.now)) }
    ensures { (file : List ℕ) → file_outcome file ≡ accepted (job_of pieces.now links.now)
        → BlockPromise file desk buffer.old (block_answer_told result) buffer.new }
{
    if let Err(fault) = sheet_fault(desk, pieces.len(), buffer.len()) {
        return Err(Refusal { fault, place: 0 });
    }
    let mut plan = Plan::new();
    finish_plan(pieces, links, walk, &mut plan);
    let mut rows = ArrayVec::new();
    let worst = planned_sheet(
        pieces,
        links,
        desk,
        walk,
        &plan.spans,
        &plan.latests,
        &mut rows,
        &mut plan.runs,
    );
    Ok(answer_sheet(desk, &rows, &plan.runs, worst, buffer))
}

/// THE BLOCK SHEET: takes every file, every desk of one byte and every lent buffer, and answers or refuses by a fault on
/// the list.
pub fn block_sheet(file: &[u8], desk: u8, buffer: &mut [u8]) -> Result<BlockFigures, Refusal>
    ensures { BlockPromise file.now desk buffer.old (block_answer_told result) buffer.new }
{
    let mut job = Job::new();
    let mut walk = Walk::new();
    judge_file(file, &mut job, &mut walk)?;
    sheet_accepted(&job.pieces, &job.links, &walk, desk, buffer)
}
