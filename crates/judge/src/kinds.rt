// The two kinds of entry: a piece and a link.
ghost use Rattle.std.specs.Prelude.{◌≡◌};
ghost use Rattle.rules.specs.File.{of_piece, of_link, as_piece, as_link};
ghost use Rattle.rules.specs.Answers.{Work, Tie};
ghost use Rattle.judge.specs.Values.{piece_value_fault, link_value_fault};
ghost use Rattle.judge.specs.Entries.{piece_known, piece_values, piece_contents};
ghost use Rattle.judge.specs.Entries.{link_known, link_values, link_contents};

use crate::Counts;
use crate::entry::Entry;
use crate::fields::{half_at, word_at};
use crate::values::{link_fault, piece_fault};
use rules::fault::Fault;
use rules::{Link, Piece, Record};

impl Entry for Piece {
    ghost kind = { of_piece };

    ghost said = { as_piece };

    ghost item = { Work };

    ghost fault = { piece_value_fault };

    #[tactic(auto, unfolding(rules::specs::File::as_piece))]
    fn said(r: &[u8]) -> Piece {
        Piece {
            desk: r[1],
            duration: half_at(r, 2),
            release: word_at(r, 4),
            due: word_at(r, 8),
        }
    }

    #[tactic(auto, unfolding(rules::specs::Reading::order_fault, rules::specs::Words::when))]
    fn judge_order(before: Counts) -> Result<(), Fault> {
        if 0 < before.links {
            return Err(Fault::PieceAfterLink);
        }
        if 256 <= before.pieces {
            return Err(Fault::TooMany);
        }
        Ok(())
    }

    fn judge_values(self, before: Counts) -> Result<(), Fault> {
        piece_fault(
            u32::from(self.desk),
            u32::from(self.duration),
            self.release,
            self.due,
        )
    }

    #[tactic(auto, unfolding(rules::specs::Reading::zero_fault, rules::specs::Words::when, rules::specs::Words::one_of))]
    fn judge_zeros(r: &[u8]) -> Result<(), Fault> {
        if word_at(r, 12) != 0 {
            return Err(Fault::NotZero);
        }
        Ok(())
    }

    fn into_record(self) -> Record {
        Record::Piece(self)
    }

    ghost known = { piece_known };

    ghost valued = { piece_values };

    ghost holds = { piece_contents };
}

impl Entry for Link {
    ghost kind = { of_link };

    ghost said = { as_link };

    ghost item = { Tie };

    ghost fault = { link_value_fault };

    #[tactic(auto, unfolding(rules::specs::File::as_link))]
    fn said(r: &[u8]) -> Link {
        // After and handover are read as one word and parted: as two halves they were put together again on the stack, for
        // the copy into the list, and each link waited there for the one before.
        let word = word_at(r, 4);
        Link {
            before: half_at(r, 2),
            after: (word % 65536) as u16,
            handover: (word / 65536) as u16,
        }
    }

    #[tactic(auto, unfolding(rules::specs::Reading::order_fault, rules::specs::Words::when))]
    fn judge_order(before: Counts) -> Result<(), Fault> {
        if 1024 <= before.links {
            return Err(Fault::TooMany);
        }
        Ok(())
    }

    fn judge_values(self, before: Counts) -> Result<(), Fault> {
        link_fault(
            before.pieces,
            u32::from(self.before),
            u32::from(self.after),
            u32::from(self.handover),
        )
    }

    #[tactic(auto, unfolding(rules::specs::Reading::zero_fault, rules::specs::Words::when, rules::specs::Words::one_of))]
    fn judge_zeros(r: &[u8]) -> Result<(), Fault> {
        if r[1] != 0 || word_at(r, 8) != 0 || word_at(r, 12) != 0 {
            return Err(Fault::NotZero);
        }
        Ok(())
    }

    fn into_record(self) -> Record {
        Record::Link(self)
    }

    ghost known = { link_known };

    ghost valued = { link_values };

    ghost holds = { link_contents };
}
