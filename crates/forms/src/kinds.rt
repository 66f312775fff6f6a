// The two kinds of row: four numbers of a piece, three of a link.
ghost use Rattle.std.specs.Prelude.{◌≡◌};
ghost use Rattle.rules.specs.Form.{piece_row, link_row};
ghost use Rattle.rules.specs.Writing.{piece_record, link_record};
ghost use Rattle.laws.specs.Held.{PieceHeld, LinkHeld};
ghost use Rattle.forms.specs.Kinds.{typed_piece, with_pieces};
ghost use Rattle.forms.specs.Kinds.{piece_width, piece_placed, piece_offered, piece_sized, piece_adds};
ghost use Rattle.forms.specs.Kinds.{typed_link, with_links};
ghost use Rattle.forms.specs.Kinds.{link_width, link_placed, link_offered, link_sized, link_adds};

use crate::row::Typed;
use judge::Counts;
use judge::values::{link_fault, piece_fault};
use records::put::{Kind, Row};
use rules::fault::Fault;
use rules::{Link, Piece};

impl Typed<4> for Piece {
    ghost typed = { typed_piece };

    ghost row_of = { piece_row };

    ghost Held = { PieceHeld };

    ghost bytes = { piece_record };

    ghost added = { with_pieces };

    fn judge_typed(row: &[u32; 4], before: Counts) -> Result<(), Fault> {
        let [desk, duration, release, due] = *row;
        piece_fault(desk, duration, release, due)
    }

    #[tactic(auto, unfolding(rules::specs::Writing::piece_record, rules::specs::Bytes::word))]
    fn record(row: &[u32; 4]) -> Row {
        let [desk, duration, release, due] = *row;
        Row {
            kind: Kind::Piece,
            desk: desk as u8,
            number: duration as u16,
            words: [release, due, 0],
        }
    }

    fn counts(before: Counts, rows: usize) -> Counts {
        Counts {
            pieces: before.pieces + rows,
            links: before.links,
        }
    }

    ghost width = { piece_width };

    ghost placed = { piece_placed };

    ghost offered = { piece_offered };

    ghost sized = { piece_sized };

    ghost adds = { piece_adds };
}

impl Typed<3> for Link {
    ghost typed = { typed_link };

    ghost row_of = { link_row };

    ghost Held = { LinkHeld };

    ghost bytes = { link_record };

    ghost added = { with_links };

    fn judge_typed(row: &[u32; 3], before: Counts) -> Result<(), Fault> {
        let [first, after, handover] = *row;
        link_fault(before.pieces, first, after, handover)
    }

    // Piece after and handover make one word.
    #[tactic(auto, unfolding(rules::specs::Writing::link_record))]
    fn record(row: &[u32; 3]) -> Row {
        let [before, after, handover] = *row;
        Row {
            kind: Kind::Link,
            desk: 0,
            number: before as u16,
            words: [after + 65536 * handover, 0, 0],
        }
    }

    fn counts(before: Counts, rows: usize) -> Counts {
        Counts {
            pieces: before.pieces,
            links: before.links + rows,
        }
    }

    ghost width = { link_width };

    ghost placed = { link_placed };

    ghost offered = { link_offered };

    ghost sized = { link_sized };

    ghost adds = { link_adds };
}
