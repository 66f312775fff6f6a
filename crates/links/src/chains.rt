// The links from each piece, chained, so that the links of one piece are walked without a look at any other.
ghost use Rattle.std.specs.Prelude.{◌≡◌, ◌<◌, length, get_or, replicate};
ghost use Rattle.rules.specs.Tables.{befores_of};
ghost use Rattle.links.specs.Chains.{Chained, ToChain, code_of};

use rules::Link;

/// The links of a job, chained: a walk goes from `first` along `next`, from the last link of a piece back to its first.
// Both tables are numbers, as the rules page has the tables of links: one more than a place, and 0 at the end of a chain,
// half the size of `Option<u16>` and cleared by zeroes. What walks a chain meets an `Option` alone.
#[derive(Drop)]
pub struct Chains {
    /// For each piece, the last link from it.
    pub last: [u16; 256],
    /// For each link, the link before it that comes from the same piece.
    pub prior: [u16; 1024],
}

impl Chains {
    /// Chains of no links.
    pub fn new() -> Self
        ensures last { result.last ≡ replicate 256 0 }
        ensures prior { result.prior ≡ replicate 1024 0 }
    {
        Chains {
            last: [0; 256],
            prior: [0; 1024],
        }
    }

    /// Chains these links.
    pub fn chain(&mut self, links: &[Link])
        requires { ToChain (befores_of links.now) (length links.now) self.old.last }
        ensures { Chained (befores_of links.now) (length links.now) self.new.last self.new.prior }
    {
        for (k, link) in links.iter().enumerate() {
            let i = usize::from(link.before);
            self.prior[k] = self.last[i];
            self.last[i] = (k + 1) as u16;
        }
    }

    /// The place of the last link from piece i. A walk is `while let Some(k)`, whose measure is what is left of the chain.
    pub fn first(&self, i: usize) -> Option<usize>
        requires { i < 256 }
        ensures { code_of result ≡ get_or self.now.last i 0 }
    {
        usize::from(self.last[i]).checked_sub(1)
    }

    /// The place of the link that is next on the chain behind link k.
    pub fn next(&self, k: usize) -> Option<usize>
        requires { k < 1024 }
        ensures { code_of result ≡ get_or self.now.prior k 0 }
    {
        usize::from(self.prior[k]).checked_sub(1)
    }
}
