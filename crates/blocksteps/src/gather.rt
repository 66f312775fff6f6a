// The first block of a set: entries in order of raised ready moment are gathered as long as the next one is ready before
// those gathered so far could be done.
ghost use Rattle.std.specs.Prelude.{◌≡◌, ◌+◌, ◌<◌, length};
ghost use Rattle.method.specs.Hours.{desk_end};
ghost use Rattle.blocksteps.specs.Listed.{Listed, Extends};

use entries::list::Entry;

/// A block: how many of the set's entries it has, and its end.
#[derive(Clone, Copy, Debug, PartialEq, Eq)]
pub struct Extent {
    pub count: usize,
    pub end: u32,
}

/// The moment by which the desk has had k slots since moment t.
pub fn open_end(t: u32, k: u32) -> u32
    requires { t + k < 4294967296 }
    ensures { result ≡ desk_end t k }
{
    t + k
}

/// The first block of the set.
pub fn gather_block(entries: &[Entry]) -> Extent
    requires listed { Listed entries.now }
    requires some_one { 0 < length entries.now }
    ensures { Extends entries.now result.count result.end }
{
    let from = entries[0].ready;
    let mut work = u32::from(entries[0].duration);
    let mut end = open_end(from, work);
    // The place is the answer: how many entries the block has.
    for k in 1..entries.len() {
        if end <= entries[k].ready {
            return Extent { count: k, end };
        }
        work += u32::from(entries[k].duration);
        end = open_end(from, work);
    }
    Extent {
        count: entries.len(),
        end,
    }
}
