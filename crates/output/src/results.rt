// One result record for each piece by number.
ghost use Rattle.std.specs.Prelude.{◌*◌, ◌≤◌, length};
ghost use Rattle.records.specs.Puts.{Puts, Room};
ghost use Rattle.rules.specs.Tables.{desks_of, starts_of, finishes_of};
ghost use Rattle.output.specs.Written.{results_in};

use records::lent::Lent;
use records::put::{Kind, Row, signed_word};
use rules::{Piece, Span};

/// Puts the result records of all pieces.
pub fn put_results(pieces: &[Piece], spans: &[Span; 256], latests: &[i32; 256], buffer: &mut Lent)
    requires few { length pieces.now ≤ 256 }
    requires room { Room buffer.old (16 * length pieces.now) }
    ensures { Puts buffer.old (results_in (length pieces.now) (desks_of pieces.now) (starts_of spans.now)
        (finishes_of spans.now) latests.now) buffer.new }
{
    for (i, piece) in pieces.iter().enumerate() {
        let Span { start, finish } = spans[i];
        let row = Row {
            kind: Kind::Result,
            desk: piece.desk,
            number: i as u16,
            words: [start, finish, signed_word(latests[i])],
        };
        row.put(buffer);
    }
}
