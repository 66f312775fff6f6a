// What a link between two pieces delays: the plan hands over by it, and latest moments take it off.
ghost use Rattle.std.specs.Prelude.{◌≡◌, ◌≤◌, eqb};
ghost use Rattle.rules.specs.Words.{when};

/// The delay of a link, by the desks of its two pieces: nothing on one desk.
#[tactic(auto, using(laws::proofs::Words::when_true, laws::proofs::Words::when_false))]
pub fn delay(before: u8, after: u8, handover: u32) -> u32
    ensures { (result ≡ when (eqb before after) 0 handover) × (result ≤ handover) }
{
    if before == after { 0 } else { handover }
}
