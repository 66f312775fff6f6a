// A finished plan answered: its result and run records in the lent buffer, and its figures; refused where the buffer is
// too short. Nothing is written before that is judged.
#![tactic(auto)]

ghost use Rattle.std.specs.Prelude.{List, ℕ};
ghost use Rattle.rules.specs.Told.{plan_answer_told};
ghost use Rattle.demands.specs.Promises.{PlanPromise};
ghost use Rattle.finished.specs.Finished.{PlannedFile};

use finished::Plan;
use output::results::put_results;
use output::runs::put_runs;
use records::lent::Lent;
use rules::fault::{Fault, Refusal};
use rules::{Piece, PlanFigures};

/// The finished plan of an accepted file: its records and figures, unless the lent buffer is too short.
pub fn answer_plan(pieces: &[Piece], plan: &Plan, buffer: &mut [u8]) -> Result<PlanFigures, Refusal>
    requires { (file : List ℕ) × PlannedFile file pieces.now plan.now }
    ensures { (file : List ℕ) → PlannedFile file pieces.now plan.now
        → PlanPromise file buffer.old (plan_answer_told result) buffer.new }
{
    // Judged here for the plan, and in sheet_answer for the sheet, whose desk is judged in between.
    if buffer.len() < 48 * pieces.len() {
        return Err(Refusal {
            fault: Fault::BufferTooShort,
            place: 0,
        });
    }
    let mut records = Lent {
        bytes: buffer,
        at: 0,
    };
    put_results(pieces, &plan.spans, &plan.latests, &mut records);
    put_runs(pieces, &plan.runs, &mut records);
    Ok(plan.figures(pieces))
}
