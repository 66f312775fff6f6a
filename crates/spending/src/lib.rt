// From one decision moment to the next: every desk that works does so on its piece, its run is noted, and what is finished
// is handed over. One loop over the desks, since how many work cannot be foretold, and each loop's end costs.
#![tactic(auto)]

ghost use Rattle.std.specs.Prelude.{Bool, ◌≡◌, ℕ, ◌<◌, ◌≤◌, length, get_or, replicate, None};
ghost use Rattle.rules.specs.Tables.{afters_of, durations_of, starts_of, finishes_of};
ghost use Rattle.handing.specs.Open.{tied, waiting_in, Linked, OpenIn, RoomFor};
ghost use Rattle.steps.specs.Choice.{whom, Busy};
ghost use Rattle.steps.specs.Handover.{hand_to};
ghost use Rattle.steps.specs.Log.{log, note_to};
ghost use Rattle.steps.specs.Opening.{Working, spent_to};
ghost use Rattle.steps.specs.States.{left_of, no_state};
ghost use Rattle.steps.specs.Work.{work, work_to};

use arrayvec::ArrayVec;
use deciding::Choice;
use handing::job::Job;
use handing::open::Open;
use moving::log::LastRuns;
use moving::work::work_on;
use rules::{Run, Span};
use steps::State;

/// How far a plan is at a decision moment.
#[derive(Drop)]
pub struct Standing {
    /// For each piece its state.
    pub states: [State; 256],
    /// The open pieces.
    pub opened: Open,
    /// For each desk its last run.
    pub lasts: LastRuns,
}

impl Standing {
    /// Nothing is known of any piece, and no desk has a run.
    pub fn new() -> Standing
        ensures states { result.states ≡ replicate 256 no_state }
        ensures opened { result.opened
            ≡ record { table = replicate 256 0; count = 0; place = replicate 256 0; waits = replicate 256 0 } }
        ensures lasts { result.lasts.places ≡ replicate 32 None }
    {
        Standing {
            states: [State::default(); 256],
            opened: Open::new(),
            lasts: LastRuns::new(),
        }
    }

    /// Each desk works on its choice from moment t until moment `next`.
    pub fn spend_all(
        &mut self,
        job: &Job,
        choice: &Choice,
        t: u32,
        next: u32,
        spans: &mut [Span; 256],
        runs: &mut ArrayVec<Run, 512>,
    )
        requires linked { Linked job.now }
        requires small { next < 4000000000 }
        requires busy { Busy choice.now.count choice.now.chosen choice.now.busy }
        requires inside { (q : ℕ) → q < choice.now.count
            → whom choice.now.chosen choice.now.busy q < length job.now.pieces.now }
        requires working { Working choice.now.count choice.now.chosen choice.now.busy self.old.opened.count
            self.old.opened.table }
        requires room { RoomFor (length job.now.links.now) job.now self.old.opened }
        ensures work_after { work (left_of self.new.states) (starts_of spans.new) (finishes_of spans.new)
            ≡ work_to (durations_of job.now.pieces.now) t next choice.now.chosen choice.now.busy choice.now.count
            (work (left_of self.old.states) (starts_of spans.old) (finishes_of spans.old)) }
        ensures log_after { log runs.new.items self.new.lasts.places
            ≡ note_to t next choice.now.chosen choice.now.busy choice.now.count
            (log runs.old.items self.old.lasts.places) }
        ensures ready_after { waiting_in self.new.opened self.new.states
            ≡ hand_to (tied job.now) (length job.now.links.now) next (left_of self.new.states) choice.now.chosen
            choice.now.busy choice.now.count (waiting_in self.old.opened self.old.states) }
        ensures opened_after { (n : ℕ) (U : ℕ → Bool) → n ≤ 256
            → ((k : ℕ) → k < length job.now.links.now → get_or (afters_of job.now.links.now) k 0 < n)
            → OpenIn n U self.old.opened
            → OpenIn n (spent_to choice.now.chosen choice.now.busy (left_of self.new.states) U choice.now.count)
            self.new.opened }
    {
        for &d in &choice.busy[..choice.count] {
            let desk = usize::from(d);
            let piece = choice.chosen[desk];
            let i = usize::from(piece);
            work_on(&job.pieces[i], t, next, &mut self.states[i], &mut spans[i]);
            let run = Run {
                piece,
                from: t,
                until: next,
            };
            self.lasts.note(runs, desk, run);
            self.opened.hand_on(job, i, next, &mut self.states);
        }
    }
}
