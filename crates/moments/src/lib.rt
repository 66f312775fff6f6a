// Latest moments of all pieces, as signed numbers: from the last pieces back, in the order that the ring check found.
// When a piece has its turn, the moments of all pieces after it are known, so each link is looked at once.
#![tactic(auto)]

ghost use Rattle.std.specs.Prelude.{◌<◌, ◌≡◌, length, get_or, pos};
ghost use Rattle.rules.specs.Moments.{takes_off, latest};
ghost use Rattle.rules.specs.Tables.{job_of, no_link, Sound};
ghost use Rattle.moments.specs.Moments.{left_by, ToLeave, ToTimeOne, ToTime, Timed};

use links::chains::Chains;
use links::delay::delay;
use links::rings::Walk;
use rules::{Link, Piece};

// What link k takes off: the follower's duration, and the delay of the link.
fn takes_off(k: usize, pieces: &[Piece], links: &[Link]) -> i32
    requires sound { Sound (job_of pieces.now links.now) }
    requires here { k < length links.now }
    ensures { result ≡ pos (takes_off (job_of pieces.now links.now) (get_or links.now k no_link)) }
{
    let link = links[k];
    let before = pieces[usize::from(link.before)];
    let after = pieces[usize::from(link.after)];
    let delayed = delay(before.desk, after.desk, u32::from(link.handover));
    (u32::from(after.duration) + delayed) as i32
}

// What link k leaves the piece before it. It may lie below zero.
fn left_by(k: usize, pieces: &[Piece], links: &[Link], moments: &[i32; 256]) -> i32
    requires { ToLeave (job_of pieces.now links.now) moments.now k }
    ensures { result ≡ left_by (job_of pieces.now links.now) moments.now (get_or links.now k no_link) }
{
    let after = usize::from(links[k].after);
    moments[after] - takes_off(k, pieces, links)
}

// The latest moment of piece i, where those of the pieces after it are known: the least of its own due and of what the
// links from it leave.
fn piece_moment(
    i: usize,
    pieces: &[Piece],
    links: &[Link],
    chains: &Chains,
    moments: &[i32; 256],
) -> i32
    requires { ToTimeOne i pieces.now links.now chains.now moments.now }
    ensures { result ≡ latest (job_of pieces.now links.now) i }
{
    let mut least = pieces[i].due as i32;
    let mut at = chains.first(i);
    while let Some(k) = at {
        least = least.min(left_by(k, pieces, links, moments));
        at = chains.next(k);
    }
    least
}

/// The latest moment of each piece.
pub fn latest_moments(pieces: &[Piece], links: &[Link], walk: &Walk, moments: &mut [i32; 256])
    requires { ToTime pieces.now links.now walk.now }
    ensures { Timed pieces.now links.now moments.new }
{
    for &number in walk.order[..pieces.len()].iter().rev() {
        let i = usize::from(number);
        moments[i] = piece_moment(i, pieces, links, &walk.chains, moments);
    }
}
