// The text that deskplan prints: the listing of a job file in a lent text. Every file has one; a text of 131,072 bytes has
// room for each.
#![tactic(auto)]

ghost use Rattle.std.specs.Prelude.{List, ◌≤◌, length};
ghost use Rattle.records.specs.Puts.{Puts, Room};
ghost use Rattle.rules.specs.Listing.{plan_listing, listing};
ghost use Rattle.rules.specs.Tables.{job_of};
ghost use Rattle.rules.specs.declared.Link.{Link as AnyLink};
ghost use Rattle.finished.specs.Finished.{Finished};
ghost use Rattle.deskplan_text.specs.Promise.{ListingPromise, enough};

use finished::Plan;
use lines::{put_refused_line, put_total_line};
use listing::pages::{put_piece_lines, put_run_lines};
use planning::file::plan_file;
use reader::Job;
use records::lent::Lent;
use rules::Piece;

/// The room that every listing has: 256 piece lines of 211 bytes, 512 run lines and the total of 141 bytes each, at most.
pub const ENOUGH: usize = 131072;

// The pages of a finished plan: piece lines, run lines by desk, and the total.
fn put_pages(pieces: &[Piece], plan: &Plan, text: &mut Lent)
    requires finished { (links : List AnyLink) × Finished (job_of pieces.now links) plan.now }
    requires room { Room text.old enough }
    ensures { (links : List AnyLink) → Finished (job_of pieces.now links) plan.now
        → Puts text.old (plan_listing (job_of pieces.now links)) text.new }
{
    put_piece_lines(pieces, &plan.spans, &plan.latests, text);
    put_run_lines(pieces, &plan.runs, text);
    put_total_line(text, plan.figures(pieces));
}

// The listing of a job file, put into a text that has room for it.
fn put_listing(file: &[u8], text: &mut Lent)
    requires { Room text.old enough }
    ensures put { Puts text.old (listing file.now) text.new }
    ensures few { length (listing file.now) ≤ enough }
{
    let mut job = Job::new();
    let mut plan = Plan::new();
    match plan_file(file, &mut job, &mut plan) {
        Ok(()) => put_pages(&job.pieces, &plan, text),
        Err(refusal) => put_refused_line(text, refusal),
    }
}

/// The listing of a job file at the front of the lent text; how many bytes it has. A text of less than 131,072 bytes is left
/// as it was, and 0 is handed back.
pub fn write_listing(file: &[u8], text: &mut [u8]) -> usize
    ensures { ListingPromise file.now text.old result text.new }
{
    // 0 and not None: the call for C answers so.
    if text.len() < ENOUGH {
        return 0;
    }
    let mut lent = Lent { bytes: text, at: 0 };
    put_listing(file, &mut lent);
    lent.at
}
