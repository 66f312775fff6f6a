// Lateness, the difference of a moment and a latest moment: the one sum of numbers that more than one station works out.
#![tactic(auto)]

ghost use Rattle.std.proofs.Common.{SFits, w32};
ghost use Rattle.std.specs.Prelude.{◌≡◌, pos, ◌-ℤ◌};

/// The lateness of what is over at moment `until` and must be over by `latest`. It may lie below zero.
pub fn lateness(until: u32, latest: i32) -> i32
    requires { SFits w32 (pos until -ℤ latest) }
    ensures { result ≡ pos until -ℤ latest }
{
    (i64::from(until) - i64::from(latest)) as i32
}
