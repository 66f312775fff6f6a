// The open pieces, those that are unfinished and wait for no piece, in a table of their own. A piece that is finished is
// taken out without a look at any other, and its links are passed: each piece after it waits for one less.
ghost use Rattle.std.specs.Prelude.{◌≡◌, ◌+◌, ◌-◌, ◌<◌, ◌≤◌, ℕ, Bool, true, length, get_or, take, replicate};
ghost use Rattle.rules.specs.Tables.{afters_of};
ghost use Rattle.links.specs.Queue.{ToCount, CountedTo};
ghost use Rattle.steps.specs.Handover.{passed, pass_from, hand_on};
ghost use Rattle.steps.specs.Opening.{Markable};
ghost use Rattle.steps.specs.States.{left_of};

use crate::job::Job;
use links::delay::delay;
use links::queue::{count_into, place_free};
use rules::Link;
use steps::State;

/// The open pieces, and how many pieces each piece waits for.
// A table with a count and no list, as `place_free` of links fills it; `place` turns it round, so that a piece is taken
// out without a search.
#[derive(Drop)]
pub struct Open {
    /// The open pieces stand in the first `count` places, in any order.
    pub table: [u16; 256],
    pub count: usize,
    /// For each open piece its place in `table`.
    pub place: [u16; 256],
    /// For each piece how many links into it are not passed.
    pub waits: [u16; 256],
}

impl Open {
    ghost use Rattle.handing.specs.Open.{tied, waiting_in, Linked, IsOpen, OpenIn, RoomFor, OpensBy};
    ghost use Rattle.handing.specs.Open.{CanClose, ClosesOne, HandsOn, OnlyReady};

    /// No piece is open, and none waits.
    pub fn new() -> Open
        ensures { result ≡ record { table = replicate 256 0; count = 0; place = replicate 256 0; waits = replicate 256 0 } }
    {
        Open {
            table: [0; 256],
            count: 0,
            place: [0; 256],
            waits: [0; 256],
        }
    }

    /// Before the first slot: the pieces that no link leads to are open.
    pub fn begin(&mut self, pieces: usize, links: &[Link])
        requires few { pieces ≤ 256 }
        requires clear { ToCount (length links.now) (afters_of links.now) self.old.waits }
        ensures waits { CountedTo (length links.now) (afters_of links.now) self.new.waits }
        ensures open_first { (U : ℕ → Bool) → ((i : ℕ) → i < pieces → U i ≡ true) → OpenIn pieces U self.new }
    {
        count_into(links, &mut self.waits);
        self.count = place_free(pieces, &self.waits, &mut self.table);
        self.mark();
    }

    /// The open pieces.
    pub fn pieces(&self) -> &[u16]
        requires { self.now.count ≤ 256 }
        ensures { result.now ≡ take self.now.count self.now.table }
    {
        &self.table[..self.count]
    }

    // Notes the places of the open pieces.
    fn mark(&mut self)
        requires { Markable self.old.count self.old.table self.old.place }
        ensures same { (self.new.table ≡ self.old.table) × (self.new.count ≡ self.old.count)
            × (self.new.waits ≡ self.old.waits) }
        ensures sized { length self.new.place ≡ 256 }
        ensures placed { (q : ℕ) → q < self.old.count → get_or self.new.place (get_or self.old.table q 0) 0 ≡ q }
    {
        for (k, &p) in self.table[..self.count].iter().enumerate() {
            self.place[usize::from(p)] = k as u16;
        }
    }

    // Takes piece i out: the last of the open pieces comes to its place.
    fn close(&mut self, i: usize)
        requires { CanClose i self.old }
        ensures closes { ClosesOne i self.old self.new }
        ensures waits { self.new.waits ≡ self.old.waits }
    {
        self.count -= 1;
        let p = self.place[i];
        let last = self.table[self.count];
        self.table[usize::from(p)] = last;
        self.place[usize::from(last)] = p;
    }

    // The piece before link k was finished at moment c: the piece after it waits for one less, and is ready no sooner than
    // the delay allows. If it waits for none any more, it is open.
    fn pass(&mut self, job: &Job, k: usize, c: u32, states: &mut [State; 256])
        requires linked { Linked job.now }
        requires one { (k < length job.now.links.now) × (c < 4000000000) }
        requires room { RoomFor (k + 1) job.now self.old }
        ensures ready_after { waiting_in self.new states.new
            ≡ passed (tied job.now) c k (waiting_in self.old states.old) }
        ensures only { OnlyReady states.old states.new }
        ensures opens { OpensBy (k + 1) job.now self.old self.new }
    {
        let link = &job.links[k];
        let b = usize::from(link.before);
        let a = usize::from(link.after);
        let delay = delay(
            job.pieces[b].desk,
            job.pieces[a].desk,
            u32::from(link.handover),
        );
        states[a].ready = states[a].ready.max(c + delay);
        let w = self.waits[a];
        self.waits[a] = w.saturating_sub(1);
        let opens = w == 1;
        if opens {
            self.table[self.count] = a as u16;
            self.place[a] = self.count as u16;
            self.count += 1;
        }
    }

    // Piece p was finished at moment c: each of its links is passed, along their chain.
    fn pass_on(&mut self, job: &Job, p: usize, c: u32, states: &mut [State; 256])
        requires linked { Linked job.now }
        requires one { (p < 256) × (c < 4000000000) }
        requires room { RoomFor (length job.now.links.now) job.now self.old }
        ensures ready_after { waiting_in self.new states.new
            ≡ pass_from (tied job.now) p c (length job.now.links.now) (waiting_in self.old states.old) }
        ensures only { OnlyReady states.old states.new }
        ensures opens { OpensBy (length job.now.links.now) job.now self.old self.new }
    {
        let mut at = job.chains.first(p);
        while let Some(k) = at {
            self.pass(job, k, c, states);
            at = job.chains.next(k);
        }
    }

    /// Piece i was worked on until moment c: if that finished it, it is closed, and its links are passed.
    pub fn hand_on(&mut self, job: &Job, i: usize, c: u32, states: &mut [State; 256])
        requires linked { Linked job.now }
        requires one { IsOpen self.old i × (c < 4000000000) }
        requires room { RoomFor (length job.now.links.now) job.now self.old }
        ensures ready_after { waiting_in self.new states.new
            ≡ hand_on (tied job.now) (length job.now.links.now) c (left_of states.old) i
            (waiting_in self.old states.old) }
        ensures only { OnlyReady states.old states.new }
        ensures hands { HandsOn job.now i states.old self.old self.new }
    {
        let unfinished = 0 < states[i].left;
        if unfinished {
            return;
        }
        self.close(i);
        self.pass_on(job, i, c, states);
    }
}
