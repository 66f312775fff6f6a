// The reader of a job file: it keeps the file and its place in it together, and gives one record or one refusal at a
// time. Each function over it is thin and leaves the work to `item_at`; callers use `item`, whose parameters are
// plain.
ghost use Rattle.std.specs.Prelude.{◌≡◌};
ghost use Rattle.rules.specs.Reading.{item_at};
ghost use Rattle.rules.specs.Told.{item_of};
ghost use Rattle.judge.specs.Says.{Says};

use crate::items::item_at;
use judge::Counts;
use rules::Record;
use rules::fault::Refusal;

/// The lent file, and how many of its records are behind.
#[derive(Clone, Copy)]
pub struct Reader<'a> {
    pub file: &'a [u8],
    pub at: usize,
}

impl<'a> Reader<'a> {
    /// A reader at the file's first record.
    pub fn new(file: &'a [u8]) -> Reader<'a>
        ensures { (result.file ≡ file.entry) × (result.at ≡ 0) }
    {
        Reader { file, at: 0 }
    }

    /// The same file at another record.
    pub fn moved(self, at: usize) -> Reader<'a>
        ensures { (result.file ≡ self.entry.file) × (result.at ≡ at) }
    {
        Reader {
            file: self.file,
            at,
        }
    }

    /// The record or refusal at the reader's place, with so many pieces and links read before it; `None` at the file's
    /// end.
    pub fn next(self, before: Counts) -> Result<Option<Record>, Refusal>
        ensures { Says before (item_of result) (item_at self.entry.file.now self.entry.at) }
    {
        item_at(self.file, self.at, before)
    }
}

/// Record k of a file, by a reader that is placed there; `None` behind its last record.
pub fn item(file: &[u8], k: usize, before: Counts) -> Result<Option<Record>, Refusal>
    ensures { Says before (item_of result) (item_at file.now k) }
{
    Reader::new(file).moved(k).next(before)
}
