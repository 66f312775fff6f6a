// A whole job file read into a job, or the first refusal met: one record at a time, each behind the others of its kind,
// until a refusal or the end of the file. The reader of one record is asked at one place only, so that whatever it
// judges is compiled into the loop.
#![tactic(auto)]

ghost use Rattle.std.specs.Prelude.{◌≡◌, ◌≤◌, ◌+◌, [], length};
ghost use Rattle.rules.specs.Reading.{read_job};
ghost use Rattle.reader.specs.Outcome.{outcome_told};

use arrayvec::ArrayVec;
use cursor::reading::item;
use judge::Counts;
use rules::fault::Refusal;
use rules::{Link, Piece, Record};

/// A job in fixed memory, with room for as many pieces and links as a file may have.
#[derive(Debug, Drop)]
pub struct Job {
    pub pieces: ArrayVec<Piece, 256>,
    pub links: ArrayVec<Link, 1024>,
}

impl Job {
    /// A job without pieces and links.
    pub fn new() -> Job
        ensures no_pieces { result.pieces.items ≡ [] }
        ensures no_links { result.links.items ≡ [] }
    {
        Job {
            pieces: ArrayVec::new(),
            links: ArrayVec::new(),
        }
    }

    // How many records it is read from: the place of the next one.
    fn records(&self) -> usize
        ensures { result ≡ length self.now.pieces.items + length self.now.links.items }
    {
        self.pieces.len() + self.links.len()
    }

    // How many pieces and links it has.
    fn counts(&self) -> Counts
        ensures pieces { result.pieces ≡ length self.now.pieces.items }
        ensures links { result.links ≡ length self.now.links.items }
    {
        Counts {
            pieces: self.pieces.len(),
            links: self.links.len(),
        }
    }
}

/// A job file into a job, whatever that held before; or the first refusal met, and the job then holds what was read
/// before it.
pub fn read_job(file: &[u8], job: &mut Job) -> Result<(), Refusal>
    ensures outcome { read_job file.now ≡ outcome_told result job.new }
    ensures few_pieces { length job.new.pieces.items ≤ 256 }
    ensures few_links { length job.new.links.items ≤ 1024 }
{
    job.pieces.clear();
    job.links.clear();
    while let Some(record) = item(file, job.records(), job.counts())? {
        match record {
            Record::Piece(piece) => job.pieces.push(piece),
            Record::Link(link) => job.links.push(link),
        }
    }
    Ok(())
}
