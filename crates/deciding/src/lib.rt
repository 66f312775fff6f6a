// One decision of the plan: who every desk works on from a moment on, and until when nothing is decided anew. It looks at
// the open pieces alone, and keeps the least key that asks for each desk.
#![tactic(auto)]

ghost use Rattle.std.specs.Prelude.{List, ◌≡◌, ℕ, ◌<◌, ◌≤◌, length, get_or, replicate, IfSome};
ghost use Rattle.std.specs.Option.{unwrap_or};
ghost use Rattle.rules.specs.Tables.{desks_of};
ghost use Rattle.steps.specs.Choice.{view, whom, never, end_next, Decided};
ghost use Rattle.steps.specs.Keys.{no_key};
ghost use Rattle.steps.specs.Opening.{Among, Lookable};
ghost use Rattle.steps.specs.States.{left_of, ready_of};
ghost use Rattle.deciding.specs.Look.{Asked, Looked, picks, offered, piece_of, named};

use rules::Piece;
use steps::State;

// No later moment, while the least is looked for: a minimum of numbers needs no branch.
const NEVER: u32 = u32::MAX;

// A key that no piece has. Not an Option: a branch on who asks for which desk was measured in the loop over the open
// pieces, and cost a third of the time where many are open.
const NO_KEY: u64 = u64::MAX;

/// Who every desk works on.
#[derive(Drop)]
pub struct Choice {
    /// The desks that work, each once, in the first `count` places. There is a place more than there are desks: one is
    /// noted before it is known whether it counts.
    pub busy: [u16; 33],
    /// How many desks work.
    pub count: usize,
    /// For each desk that works its piece.
    pub chosen: [u16; 32],
}

// What a look at the open pieces finds: how many desks work, and the first moment at which a piece becomes ready.
#[derive(Clone, Copy)]
struct Look {
    count: usize,
    next: u32,
}

// A piece's key is put up for desk d. The lesser key stays. The desk is noted behind those that work, and counted if nobody
// asked for it yet: without a branch, since who asks for which desk cannot be foretold.
#[tactic(auto, unfolding(crate::specs::Look::offered, rules::specs::Words::when))]
fn offer(key: u64, d: usize, count: usize, best: &mut [u64; 32], busy: &mut [u16; 33]) -> usize
    requires { (d < 32) × (count < 33) }
    ensures { picks result best.new busy.new
        ≡ offered key d (picks count best.old busy.old) }
{
    let so_far = best[d];
    best[d] = so_far.min(key);
    busy[count] = d as u16;
    if so_far == NO_KEY { count + 1 } else { count }
}

// One pass over the open pieces: finds the least key for every desk, and the first later moment at which a piece becomes
// ready. By `else` and not by `continue`: as it is compiled, a turn on a piece that waits then takes one jump, not two.
fn look_at(
    t: u32,
    opened: &[u16],
    pieces: &[Piece],
    keys: &[u64; 256],
    states: &[State; 256],
    best: &mut [u64; 32],
    busy: &mut [u16; 33],
) -> Look
    requires lookable { Lookable (length pieces.now) opened.now (desks_of pieces.now) keys.now }
    requires clear { (d : ℕ) → d < 32 → get_or best.old d 0 ≡ no_key }
    ensures { (left : List ℕ)
        → Looked (view t (desks_of pieces.now) keys.now left (ready_of states.now))
        (Among opened.now (length opened.now)) result.count best.new busy.new result.next }
{
    let mut count = 0;
    let mut next = NEVER;
    for &i in opened {
        let i = usize::from(i);
        let ready = states[i].ready;
        let later = t < ready;
        if later {
            next = next.min(ready);
        } else {
            count = offer(keys[i], usize::from(pieces[i].desk), count, best, busy);
        }
    }
    Look { count, next }
}

// Names the piece of each desk that works, by the last eight bits of its key, and gives the earliest of a moment and of
// the moments at which these pieces would be finished.
fn first_end(
    t: u32,
    next: u32,
    count: usize,
    states: &[State; 256],
    best: &[u64; 32],
    busy: &[u16; 33],
    chosen: &mut [u16; 32],
) -> u32
    requires asked { Asked no_key count best.now busy.now }
    requires t_le_next { t ≤ next }
    ensures pieces { chosen.new ≡ named best.now busy.now count chosen.old }
    ensures end { result ≡ end_next t (left_of states.now) (λ q. piece_of (whom best.now busy.now q)) count next }
{
    let mut slots = next - t;
    for q in 0..count {
        let d = usize::from(busy[q]);
        let i = best[d] % 256;
        chosen[d] = i as u16;
        slots = slots.min(states[i as usize].left);
    }
    t + slots
}

impl Choice {
    /// No desk works.
    pub fn new() -> Choice
        ensures { result ≡ record { busy = replicate 33 0; count = 0; chosen = replicate 32 0 } }
    {
        Choice {
            busy: [0; 33],
            count: 0,
            chosen: [0; 32],
        }
    }

    /// Chooses for every desk at moment t, and gives the next decision moment, if there is a later one.
    pub fn decide(
        &mut self,
        t: u32,
        opened: &[u16],
        pieces: &[Piece],
        keys: &[u64; 256],
        states: &[State; 256],
    ) -> Option<u32>
        requires lookable { Lookable (length pieces.now) opened.now (desks_of pieces.now) keys.now }
        requires in_time { t < never }
        ensures decided { Decided (view t (desks_of pieces.now) keys.now (left_of states.now)
            (ready_of states.now)) (Among opened.now (length opened.now)) self.new.count self.new.chosen self.new.busy
            (unwrap_or result never) }
        ensures later { IfSome result (λ next. next < never) }
    {
        let mut best = [NO_KEY; 32];
        let look = look_at(t, opened, pieces, keys, states, &mut best, &mut self.busy);
        self.count = look.count;
        let next = first_end(
            t,
            look.next,
            look.count,
            states,
            &best,
            &self.busy,
            &mut self.chosen,
        );
        if next == NEVER { None } else { Some(next) }
    }
}
