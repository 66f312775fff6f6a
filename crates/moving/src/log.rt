// The log of the runs, in the order in which they begin: a list that the caller lends, and for each desk the place of its
// last run in it.
ghost use Rattle.std.specs.Prelude.{◌≡◌, ◌<◌, None, replicate, get_or};
ghost use Rattle.moving.specs.LastRuns.{goes_on_from};
ghost use Rattle.steps.specs.Log.{log, stays, note_on};

use arrayvec::ArrayVec;
use rules::Run;

/// For each desk the place of its last run in the log, and None where it has none.
#[derive(Drop)]
pub struct LastRuns {
    pub places: [Option<u16>; 32],
}

// The run at a place of the log is of the same piece, and ends where this run begins.
#[tactic(auto, unfolding(steps::specs::Log::stays))]
fn goes_on(runs: &[Run], place: usize, run: Run) -> bool
    ensures { result ≡ stays runs.now place run.piece run.from }
{
    place < runs.len() && runs[place].piece == run.piece && runs[place].until == run.from
}

impl LastRuns {
    /// No desk has a run yet.
    pub fn new() -> LastRuns
        ensures { result.places ≡ replicate 32 None }
    {
        LastRuns { places: [None; 32] }
    }

    // The place of the desk's last run, if that is of the same piece and ends where this run begins.
    fn joined(&self, runs: &[Run], desk: usize, run: Run) -> Option<usize>
        requires { desk < 32 }
        ensures { result ≡ goes_on_from runs.now (get_or self.now.places desk None) run }
    {
        let place = usize::from(self.places[desk]?);
        if goes_on(runs, place, run) {
            Some(place)
        } else {
            None
        }
    }

    /// The desk works a run: its last run goes on, or this one is put behind the others.
    pub fn note(&mut self, runs: &mut ArrayVec<Run, 512>, desk: usize, run: Run)
        requires { desk < 32 }
        ensures { log runs.new.items self.new.places
            ≡ note_on run.from run.until desk run.piece (log runs.old.items self.old.places) }
    {
        match self.joined(runs, desk, run) {
            Some(place) => runs[place].until = run.until,
            None => {
                if !runs.is_full() {
                    self.places[desk] = Some(runs.len() as u16);
                    runs.push(run);
                }
            }
        }
    }
}
