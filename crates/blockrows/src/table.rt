// What the sheet says besides the runs: a row for each block of the first cutting, and the worst lateness over the
// runs.
ghost use Rattle.std.specs.Prelude.{◌≡◌, ◌≤◌, map, length};
ghost use Rattle.rules.specs.Words.{worst_of};
ghost use Rattle.rules.specs.Blocks.{cut_in_order};
ghost use Rattle.entries.specs.Lent.{meant};
ghost use Rattle.method.specs.Hours.{desk_end};
ghost use Rattle.blocksteps.specs.Listed.{Listed};
ghost use Rattle.blockrows.specs.Rows.{row_of, late_in, Dated};

use arrayvec::ArrayVec;
use blocksteps::gather::gather_block;
use entries::list::Entry;
use method::BlockRow;
use numbers::lateness;
use rules::Run;

/// Puts a row for each block of the set into the list, by time, whatever it held before.
pub fn first_blocks(entries: &[Entry], rows: &mut ArrayVec<BlockRow, 256>)
    requires { Listed entries.now }
    ensures few { length rows.new.items ≤ length entries.now }
    ensures blocks { rows.new.items ≡ map row_of (cut_in_order desk_end (map meant entries.now)) }
{
    rows.clear();
    let mut rest = entries;
    while let Some(first) = rest.first() {
        let block = gather_block(rest);
        let row = BlockRow {
            count: block.count as u16,
            from: first.ready,
            end: block.end,
        };
        rows.push(row);
        rest = &rest[block.count..];
    }
}

/// The greatest lateness of the runs; 0 where there is none.
pub fn worst_lateness(latests: &[i32; 256], runs: &[Run]) -> i32
    requires { Dated latests.now runs.now }
    ensures { result ≡ worst_of (map (late_in latests.now) runs.now) }
{
    let Some(first) = runs.first() else {
        return 0;
    };
    let mut worst = lateness(first.until, latests[usize::from(first.piece)]);
    for run in runs {
        worst = worst.max(lateness(run.until, latests[usize::from(run.piece)]));
    }
    worst
}
