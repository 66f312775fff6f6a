// The plan by urgency, by decision moments: from one moment at which some piece becomes ready or is finished to the
// next, never slot by slot.
#![tactic(auto)]

pub mod keys;

ghost use Rattle.std.specs.Prelude.{◌≡◌, ◌≤◌, ◌<◌, ℕ, pos, nat_abs, length, get_or};
ghost use Rattle.rules.specs.Tables.{job_of, desks_of, durations_of, releases_of, befores_of};
ghost use Rattle.rules.specs.Tables.{starts_of, finishes_of, run_pieces, run_froms, run_untils};
ghost use Rattle.links.specs.Chains.{Chained};
ghost use Rattle.steps.specs.Keys.{Keyed};
ghost use Rattle.steps.specs.States.{left_of, ready_of};
ghost use Rattle.urgency.specs.Plan.{Given, Planned, Begun};

use crate::keys::key_of;
use arrayvec::ArrayVec;
use deciding::Choice;
use handing::job::Job;
use links::chains::Chains;
use rules::{Link, Piece, Run, Span};
use spending::Standing;
use steps::State;

// The keys of the pieces, and their states and spans as they are before the first slot.
fn begin(
    pieces: &[Piece],
    latests: &[i32; 256],
    keys: &mut [u64; 256],
    states: &mut [State; 256],
    spans: &mut [Span; 256],
)
    requires few { length pieces.now ≤ 256 }
    requires near { (i : ℕ) → i < length pieces.now → nat_abs (get_or latests.now i (pos 0)) ≤ 500000 }
    ensures begun { Begun (length pieces.now) (durations_of pieces.now) (releases_of pieces.now) (left_of states.new)
        (ready_of states.new) (starts_of spans.new) (finishes_of spans.new) }
    ensures keyed { Keyed (length pieces.now) latests.now keys.new }
{
    for (i, piece) in pieces.iter().enumerate() {
        keys[i] = key_of(latests[i], i);
        let left = u32::from(piece.duration);
        states[i] = State {
            left,
            ready: piece.release,
        };
        spans[i] = Span::default();
    }
}

/// Plans the pieces, whose latest moments are known and whose links are chained. The spans of the pieces are filled, and
/// the runs of all desks are put in the list, in place of what it held, in the order in which they begin.
pub fn plan(
    pieces: &[Piece],
    links: &[Link],
    chains: &Chains,
    latests: &[i32; 256],
    spans: &mut [Span; 256],
    runs: &mut ArrayVec<Run, 512>,
)
    requires given { Given (job_of pieces.now links.now) (length pieces.now) latests.now }
    requires chained { Chained (befores_of links.now) (length links.now) chains.now.last chains.now.prior }
    ensures { Planned (job_of pieces.now links.now) (length pieces.now) (desks_of pieces.now) (starts_of spans.new)
        (finishes_of spans.new) (run_pieces runs.new.items) (run_froms runs.new.items) (run_untils runs.new.items)
        (length runs.new.items) }
{
    runs.clear();
    let job = Job {
        pieces,
        links,
        chains,
    };
    let mut keys = [0; 256];
    let mut standing = Standing::new();
    begin(pieces, latests, &mut keys, &mut standing.states, spans);
    standing.opened.begin(pieces.len(), links);
    let mut choice = Choice::new();
    let mut t = 0;
    while let Some(next) = choice.decide(
        t,
        standing.opened.pieces(),
        pieces,
        &keys,
        &standing.states,
    ) {
        standing.spend_all(&job, &choice, t, next, spans, runs);
        t = next;
    }
}
