// The runs of each desk, chained from the first to the last, so that no desk looks at the runs of another. The log has
// the runs in the order in which they begin, so each desk's runs stand in it by start.
ghost use Rattle.std.specs.Prelude.{◌≡◌, ◌+◌, ◌<◌, length, get_or, set};
ghost use Rattle.rules.specs.Tables.{desks_of, run_pieces};
ghost use Rattle.output.specs.Chained.{RunsChained, code_of};
ghost use Rattle.output.specs.Written.{LogFits};

use rules::{Piece, Run};

/// For each desk one more than the place of its first run, and for each run one more than the place of the next run of
/// its desk; 0 ends a chain. As numbers and not as options, so that clearing the tables is zeroing half the bytes; what
/// walks a chain meets an `Option` alone.
#[derive(Clone, Copy)]
pub struct RunChains {
    pub first: [u16; 256],
    pub later: [u16; 512],
}

impl RunChains {
    /// The chains of these runs.
    pub fn new(pieces: &[Piece], runs: &[Run]) -> RunChains
        requires { LogFits (length runs.now) (run_pieces runs.now) (length pieces.now) }
        ensures { RunsChained (desks_of pieces.now) (run_pieces runs.now) (length runs.now) 0 result.first result.later }
    {
        let mut chains = RunChains {
            first: [0; 256],
            later: [0; 512],
        };
        for k in (0..runs.len()).rev() {
            let piece = pieces[usize::from(runs[k].piece)];
            chains.put_first(piece.desk, k);
        }
        chains
    }

    // Run k comes to the front of its desk's chain.
    fn put_first(&mut self, desk: u8, k: usize)
        requires { k < 512 }
        ensures first { self.new.first ≡ set self.old.first desk (k + 1) }
        ensures later { self.new.later ≡ set self.old.later k (get_or self.old.first desk 0) }
        ensures byte { desk < 256 }
    {
        let own = usize::from(desk);
        self.later[k] = self.first[own];
        self.first[own] = (k + 1) as u16;
    }

    /// The place of the first run of a desk.
    pub fn first(&self, desk: u8) -> Option<usize>
        ensures { code_of result ≡ get_or self.now.first desk 0 }
    {
        usize::from(self.first[usize::from(desk)]).checked_sub(1)
    }

    /// The place of the next run of the same desk.
    pub fn next(&self, k: usize) -> Option<usize>
        requires { k < 512 }
        ensures { code_of result ≡ get_or self.now.later k 0 }
    {
        usize::from(self.later[k]).checked_sub(1)
    }
}
