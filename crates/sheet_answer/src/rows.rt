// Records of one desk out of a list, one behind the other: of blocks and of runs alike, each saying what its record is.
ghost use Rattle.std.specs.Prelude.{◌≡◌, ℕ, ◌*◌, length};
ghost use Rattle.records.specs.Puts.{Puts, Room};
ghost use Rattle.records.specs.declared.put.Row.{Row};
ghost use Rattle.sheet_answer.specs.Listed.{block_row, run_row, rows_bytes};

use method::BlockRow;
use records::lent::Lent;
use records::put::{Kind, Row};
use rules::Run;

/// What stands on a desk and has a record.
pub trait OnDesk: Copy {
    // Its record on a desk.
    ghost row_on: { ℕ → Self → Row };

    fn row(self, desk: u8) -> Row
        ensures { result ≡ row_on desk self };
}

impl OnDesk for BlockRow {
    ghost row_on = { block_row };

    fn row(self, desk: u8) -> Row {
        Row {
            kind: Kind::Block,
            desk,
            number: self.count,
            words: [self.from, self.end, 0],
        }
    }
}

impl OnDesk for Run {
    ghost row_on = { run_row };

    fn row(self, desk: u8) -> Row {
        Row {
            kind: Kind::Run,
            desk,
            number: self.piece,
            words: [self.from, self.until, 0],
        }
    }
}

/// Puts the records of all of a list.
pub fn put_rows<T: OnDesk>(items: &[T], desk: u8, buffer: &mut Lent)
    requires { Room buffer.old (16 * length items.now) }
    ensures { Puts buffer.old (rows_bytes (T.row_on desk) items.now) buffer.new }
{
    for item in items {
        item.row(desk).put(buffer);
    }
}
