// The urgency of each piece in one number, so that a decision compares two pieces at once: the latest moment, raised above
// zero, and in the last eight bits the piece's own number.
ghost use Rattle.std.specs.Prelude.{◌≡◌, ◌≤◌, ◌<◌, nat_abs};
ghost use Rattle.steps.specs.Keys.{key_of};

// What raises every latest moment above zero.
const RAISED_BY: i32 = 524288;

// A piece number takes eight bits.
const NUMBERS: u64 = 256;

// The key of piece i.
pub(crate) fn key_of(latest: i32, i: usize) -> u64
    requires { (nat_abs latest ≤ 500000) × (i < 256) }
    ensures { result ≡ key_of latest i }
{
    let raised = latest + RAISED_BY;
    raised as u64 * NUMBERS + i as u64
}
