// The block method: cutting a set into blocks and solving a block call each other, the count of pieces falling. In a
// block one piece is set aside; the others are a set to be cut again, and the piece set aside gets the slots that they
// leave free. These are the slots before, between and behind the blocks of the others, since a block leaves none of its
// own slots free: so slots are given away in the order of time.
ghost use Rattle.std.specs.Prelude.{◌+◌, ◌*◌, ◌-◌, ◌≤◌, length};
ghost use Rattle.method.specs.Board.{board_of, share};
ghost use Rattle.solve.specs.Solving.{Lent, CutOnto, SolvedOnto};

use arrayvec::ArrayVec;
use blocksteps::aside::{set_aside, without};
use blocksteps::board::give_slots;
use blocksteps::gather::gather_block;
use entries::list::Entry;
use rules::{Link, Run};

/// Cuts the set into blocks and solves each; the slots from `from` until `end` that are left are for `aside`. The
/// entries are in order, and are left in any.
#[cycle(cut_set_solve_block)]
pub fn cut_set(
    links: &[Link],
    entries: &mut [Entry],
    aside: Option<u16>,
    from: u32,
    end: u32,
    runs: &mut ArrayVec<Run, 512>,
)
    requires { Lent links.now entries.old (length runs.old.items + 2 * length entries.old + share aside) }
    ensures few { length runs.new.items ≤ length runs.old.items + 2 * length entries.old + share aside }
    ensures cut_onto { CutOnto links.now entries.old aside from end (board_of runs.old.items) (board_of runs.new.items) }
{
    let mut t = from;
    let mut at = 0;
    // By blocks, which differ in length, and each is lent on to be written: no iterator hands such parts out.
    while at < entries.len() {
        let start = entries[at].ready;
        let block = gather_block(&entries[at..]);
        let next = at + block.count;
        give_slots(runs, aside, t, start);
        solve_block(links, &mut entries[at..next], start, block.end, runs);
        t = block.end;
        at = next;
    }
    give_slots(runs, aside, t, end);
}

// Solves the block of these entries, with the slots from `from` until `end`.
#[cycle(cut_set_solve_block)]
fn solve_block(
    links: &[Link],
    entries: &mut [Entry],
    from: u32,
    end: u32,
    runs: &mut ArrayVec<Run, 512>,
)
    requires { Lent links.now entries.old (length runs.old.items + 2 * length entries.old) }
    ensures few { length runs.new.items ≤ length runs.old.items + (2 * length entries.old - 1) }
    ensures solved_onto { SolvedOnto links.now entries.old from end (board_of runs.old.items) (board_of runs.new.items) }
{
    let Some(aside) = set_aside(links, entries) else {
        return;
    };
    let left = without(entries, aside.number);
    cut_set(
        links,
        &mut entries[..left],
        Some(aside.number),
        from,
        end,
        runs,
    );
}
