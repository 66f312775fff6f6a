// The slots up to the next decision moment, worked on one piece at once.
ghost use Rattle.std.specs.Prelude.{◌≡◌};
ghost use Rattle.moving.specs.Worked.{worked_state, worked_span};

use rules::{Piece, Span};
use steps::State;

/// The piece is worked on from moment t until moment `next`.
#[tactic(auto, unfolding(rules::specs::Words::when))]
pub fn work_on(piece: &Piece, t: u32, next: u32, state: &mut State, span: &mut Span)
    ensures state_after { state.new ≡ worked_state t next state.old }
    ensures span_after { span.new ≡ worked_span t next piece.now state.old span.old }
{
    if state.left == u32::from(piece.duration) {
        span.start = t;
    }
    state.left = state.left.saturating_sub(next.saturating_sub(t));
    span.finish = next;
}
