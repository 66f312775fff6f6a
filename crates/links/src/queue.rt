// Pieces placed in a queue as soon as nothing is left that they wait for. Each link from a placed piece is passed once,
// along the piece's chain.
ghost use Rattle.std.specs.Prelude.{◌≡◌, ◌≤◌, length, replicate};
ghost use Rattle.rules.specs.Tables.{afters_of};
ghost use Rattle.links.specs.Queue.{Queue, ToCount, CountedTo};
ghost use Rattle.links.specs.Queue.{ToPassOne, PassedOne, ToPass, PassedOn, ToPassAll, PassedAll};

use crate::chains::Chains;
use rules::Link;

/// How many links lead to each piece: so many links it waits for. The table is clear at first.
pub fn count_into(links: &[Link], waits: &mut [u16; 256])
    requires { ToCount (length links.now) (afters_of links.now) waits.old }
    ensures { CountedTo (length links.now) (afters_of links.now) waits.new }
{
    for link in links {
        waits[usize::from(link.after)] += 1;
    }
}

/// The pieces that wait for nothing, in the order of their numbers; how many.
#[tactic(auto, using(crate::proofs::QueueLaws::queue_steps))]
pub fn place_free(pieces: usize, waits: &[u16; 256], order: &mut [u16; 256]) -> usize
    requires { pieces ≤ 256 }
    ensures { Queue pieces result order.new waits.now }
{
    let mut placed = 0;
    for i in 0..pieces {
        if waits[i] == 0 {
            order[placed] = i as u16;
            placed += 1;
        }
    }
    placed
}

// The queue: `order[..placed]` holds the placed pieces, `waits[j]` is what piece j still waits for. A table with a count
// beside it and no list: once all pieces are placed it is the walk's table as it stands.
#[derive(Drop)]
pub(crate) struct Placing {
    pub(crate) order: [u16; 256],
    pub(crate) placed: usize,
    pub(crate) waits: [u16; 256],
}

impl Placing {
    // No piece is placed, and each waits for so many links.
    pub(crate) fn new(each: u16) -> Self
        ensures { result ≡ record { order = replicate 256 0; placed = 0; waits = replicate 256 each } }
    {
        Placing {
            order: [0; 256],
            placed: 0,
            waits: [each; 256],
        }
    }

    // As at first: no piece is placed, and each waits for so many links.
    pub(crate) fn begin(&mut self, each: u16)
        ensures begun { self.new ≡ record { order = self.old.order; placed = 0; waits = replicate 256 each } }
        ensures sized { length self.old.order ≡ 256 }
    {
        self.placed = 0;
        self.waits = [each; 256];
    }

    // One link to piece j is passed: it waits for one less, and is placed with the last.
    fn pass_one(&mut self, j: usize)
        requires { ToPassOne j self.old }
        ensures { PassedOne j self.old self.new }
    {
        let w = self.waits[j];
        if w == 0 {
            return;
        }
        self.waits[j] = w - 1;
        if w == 1 {
            self.order[self.placed] = j as u16;
            self.placed += 1;
        }
    }

    // Every link from piece i is passed.
    pub(crate) fn pass_on(&mut self, i: usize, links: &[Link], chains: &Chains)
        requires { ToPass i links.now chains.now self.old }
        ensures { PassedOn i links.now chains.now self.old self.new }
    {
        let mut at = chains.first(i);
        while let Some(k) = at {
            self.pass_one(usize::from(links[k].after));
            at = chains.next(k);
        }
    }

    // Every link from every piece in the queue is passed, from those placed on the way as well.
    pub(crate) fn pass_all(&mut self, links: &[Link], chains: &Chains)
        requires { ToPassAll links.now chains.now self.old }
        ensures { PassedAll links.now chains.now self.old self.new.placed self.new }
    {
        // The queue grows while it is walked.
        for head in 0..self.order.len() {
            if head == self.placed {
                return;
            }
            self.pass_on(usize::from(self.order[head]), links, chains);
        }
    }
}
