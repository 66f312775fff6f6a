// The block sheet of one desk out of a finished plan: the raised ready moments are made of it first, and the links of the
// desk are picked out. Everything else comes out of the block rule alone.
ghost use Rattle.std.specs.Prelude.{length};
ghost use Rattle.rules.specs.Tables.{job_of, befores_of, afters_of, finishes_of};
ghost use Rattle.links.specs.Rings.{Walkable};
ghost use Rattle.method.specs.Sheet.{SheetOf};
ghost use Rattle.blocks.specs.Sheet.{Laid};

use crate::own::own_links;
use arrayvec::ArrayVec;
use blockrows::table::{first_blocks, worst_lateness};
use desklist::order::desk_order;
use entries::list::Entry;
use links::rings::Walk;
use method::BlockRow;
use ready::raise::raised_moments;
use rules::{Link, Piece, Run, Span};
use solve::sets::cut_set;

/// THE BLOCK SHEET of one desk: puts its blocks and its runs into the lists, by time, whatever they held
/// before, and returns the worst lateness.
pub fn planned_sheet(
    pieces: &[Piece],
    links: &[Link],
    desk: u8,
    walk: &Walk,
    spans: &[Span; 256],
    latests: &[i32; 256],
    rows: &mut ArrayVec<BlockRow, 256>,
    runs: &mut ArrayVec<Run, 512>,
) -> i32
    requires laid { Laid pieces.now links.now (finishes_of spans.now) latests.now }
    requires walkable { Walkable (length pieces.now) (length links.now) (befores_of links.now) (afters_of links.now)
        walk.now.chains.last walk.now.chains.prior walk.now.order }
    ensures { SheetOf (job_of pieces.now links.now) desk rows.new.items runs.new.items result }
{
    runs.clear();
    let mut ready = [0u32; 256];
    raised_moments(pieces, links, walk, spans, &mut ready);
    let mut entries = ArrayVec::<Entry, 256>::new();
    desk_order(pieces, desk, &ready, latests, &mut entries);
    first_blocks(&entries, rows);
    let mut own = ArrayVec::<Link, 1024>::new();
    own_links(pieces, links, desk, &mut own);
    cut_set(&own, &mut entries, None, 0, 0, runs);
    worst_lateness(latests, runs)
}
