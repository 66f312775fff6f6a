// The board: the stretches of slots given away so far, by time, as the runs that they become. Slots are given away in
// the order of time only, so a stretch is put at the end, or makes the last one longer where it touches that and is the
// same piece's.
ghost use Rattle.std.specs.Prelude.{◌≡◌, ◌+◌, ◌≤◌, length};
ghost use Rattle.method.specs.Board.{board_of, touching, give, whom, share};

use arrayvec::ArrayVec;
use rules::Run;

// The last stretch is the piece's and is over at moment `from`.
fn touches(runs: &[Run], piece: u16, from: u32) -> bool
    ensures { result ≡ touching piece from (board_of runs.now) }
{
    match runs.last() {
        Some(last) => last.until == from && last.piece == piece,
        None => false,
    }
}

/// Gives the slots from `from` until `until` to `piece`, if there is one.
pub fn give_slots(runs: &mut ArrayVec<Run, 512>, piece: Option<u16>, from: u32, until: u32)
    requires { length runs.old.items + share piece ≤ 512 }
    ensures few { length runs.new.items ≤ length runs.old.items + share piece }
    ensures given { board_of runs.new.items ≡ give (whom piece) from until (board_of runs.old.items) }
{
    let Some(piece) = piece else {
        return;
    };
    if until <= from {
        return;
    }
    if touches(runs, piece, from) {
        let last = runs.len() - 1;
        runs[last].until = until;
        return;
    }
    runs.push(Run { piece, from, until });
}
