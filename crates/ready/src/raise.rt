// Ready moments raised along the links, piece by piece in the order that the ring check found: when a piece has its turn,
// all links into it have been looked at, so its moment stands, and each link is looked at once. No moment rises above the
// raised ready moment.
ghost use Rattle.std.specs.Prelude.{◌≡◌, ◌≤◌, ◌<◌, length};
ghost use Rattle.rules.specs.Tables.{job_of, befores_of, afters_of, finishes_of};
ghost use Rattle.links.specs.Chains.{Chained};
ghost use Rattle.links.specs.Rings.{Walkable};
ghost use Rattle.ready.specs.Planned.{Planned, Released, leaves, Below, Risen, HoldsRaised};

use blocksteps::gather::open_end;
use links::chains::Chains;
use links::rings::Walk;
use rules::{Link, Piece, Span};

fn take_releases(pieces: &[Piece], table: &mut [u32; 256])
    requires { length pieces.now ≤ 256 }
    ensures { Released pieces.now table.new }
{
    for (i, piece) in pieces.iter().enumerate() {
        table[i] = piece.release;
    }
}

// What a piece leaves the piece after it: on one desk its own moment and its duration, else its finish and the handover.
#[tactic(auto, unfolding(rules::specs::Words::when, crate::specs::Planned::leaves))]
fn leave(own: bool, moment: u32, lasting: u16, ending: u32, handing: u16) -> u32
    requires moment_bound { moment ≤ 1000000 }
    requires ending_bound { ending ≤ 1000000 }
    ensures { result ≡ leaves own moment lasting ending handing }
{
    if own {
        return open_end(moment, u32::from(lasting));
    }
    ending + u32::from(handing)
}

// What piece i leaves counts for every piece after it. Its own moment stands by then.
fn raise_from(
    i: usize,
    pieces: &[Piece],
    links: &[Link],
    chains: &Chains,
    spans: &[Span; 256],
    table: &mut [u32; 256],
)
    requires planned { Planned pieces.now links.now (finishes_of spans.now) }
    requires chained { Chained (befores_of links.now) (length links.now) chains.now.last chains.now.prior }
    requires below { Below (job_of pieces.now links.now) table.old }
    requires one { i < length pieces.now }
    ensures { Risen (job_of pieces.now links.now) i table.old table.new }
{
    let piece = pieces[i];
    let mut at = chains.first(i);
    while let Some(k) = at {
        let link = links[k];
        let after = usize::from(link.after);
        let own = piece.desk == pieces[after].desk;
        let asked = leave(
            own,
            table[i],
            piece.duration,
            spans[i].finish,
            link.handover,
        );
        table[after] = table[after].max(asked);
        at = chains.next(k);
    }
}

/// THE RAISED READY MOMENTS of all pieces.
pub fn raised_moments(
    pieces: &[Piece],
    links: &[Link],
    walk: &Walk,
    spans: &[Span; 256],
    table: &mut [u32; 256],
)
    requires planned { Planned pieces.now links.now (finishes_of spans.now) }
    requires walkable { Walkable (length pieces.now) (length links.now) (befores_of links.now) (afters_of links.now)
        walk.now.chains.last walk.now.chains.prior walk.now.order }
    ensures { HoldsRaised (job_of pieces.now links.now) table.new }
{
    take_releases(pieces, table);
    for piece in &walk.order[..pieces.len()] {
        raise_from(
            usize::from(*piece),
            pieces,
            links,
            &walk.chains,
            spans,
            table,
        );
    }
}
