// The ring check on the links: an order of the pieces in which every piece stands after the pieces before it, or the
// lowest piece that leads by links back to itself. The search for that piece runs only where there is a ring.
ghost use Rattle.std.specs.Prelude.{◌≡◌, length, replicate};
ghost use Rattle.rules.specs.Tables.{befores_of, afters_of};
ghost use Rattle.rules.specs.Rings.{lowest_on_ring};
ghost use Rattle.links.specs.Chains.{Chained};
ghost use Rattle.links.specs.Links.{Ties, follows};
ghost use Rattle.links.specs.Rings.{ring_at, ToCheck, RingChecked, ToLead, LeadsBack};

use crate::chains::Chains;
use crate::queue::{Placing, count_into, place_free};
use rules::Link;

/// How the links are walked: from each piece by its chain, and from piece to piece in an order in which every piece
/// stands after the pieces before it.
#[derive(Drop)]
pub struct Walk {
    pub chains: Chains,
    pub order: [u16; 256],
}

impl Walk {
    /// For a ring check: no links, no order yet.
    pub fn new() -> Self
        ensures last { result.chains.last ≡ replicate 256 0 }
        ensures prior { result.chains.prior ≡ replicate 1024 0 }
        ensures order { result.order ≡ replicate 256 0 }
    {
        Walk {
            chains: Chains::new(),
            order: [0; 256],
        }
    }
}

// Whether piece i leads to itself: each piece waits for one link, the links from i are passed, then all from what is
// placed. The queue may hold anything: it is lent, so that its tables are not made anew for each piece.
fn leads_back(i: usize, links: &[Link], chains: &Chains, queue: &mut Placing) -> bool
    requires { ToLead i links.now chains.now }
    ensures { LeadsBack i links.now chains.now result }
{
    queue.begin(1);
    queue.pass_on(i, links, chains);
    queue.pass_all(links, chains);
    queue.waits[i] == 0
}

// No piece leads to itself, or the lowest that does.
fn lowest_on_ring(pieces: usize, links: &[Link], chains: &Chains) -> Result<(), usize>
    requires ties { Ties pieces (length links.now) (befores_of links.now) (afters_of links.now) }
    requires chained { Chained (befores_of links.now) (length links.now) chains.now.last chains.now.prior }
    ensures { ring_at result
        ≡ lowest_on_ring (follows (length links.now) (befores_of links.now) (afters_of links.now)) pieces }
{
    let mut queue = Placing::new(1);
    for i in 0..pieces {
        if leads_back(i, links, chains, &mut queue) {
            return Err(i);
        }
    }
    Ok(())
}

/// The ring check: no ring, and the walk holds the pieces in order; or the lowest piece on a ring, and the walk's order
/// holds nothing of use.
pub fn ring_check(pieces: usize, links: &[Link], walk: &mut Walk) -> Result<(), usize>
    requires { ToCheck pieces (length links.now) (befores_of links.now) (afters_of links.now)
        walk.old.chains.last }
    ensures { RingChecked pieces (length links.now) (befores_of links.now) (afters_of links.now)
        walk.new.chains.last walk.new.chains.prior walk.new.order result }
{
    walk.chains.chain(links);
    let mut queue = Placing::new(0);
    count_into(links, &mut queue.waits);
    queue.placed = place_free(pieces, &queue.waits, &mut queue.order);
    queue.pass_all(links, &walk.chains);
    if queue.placed == pieces {
        walk.order = queue.order;
        return Ok(());
    }
    lowest_on_ring(pieces, links, &walk.chains)
}
