// The runs of one desk, handed back as a stretch of the caller's own records.
ghost use Rattle.std.specs.Prelude.{◌≡◌, ◌&&◌, ◌+◌, ◌*◌, ◌≤◌, ◌<◌, length};
ghost use Rattle.rules.specs.File.{whole_records};
ghost use Rattle.rules.specs.DeskRuns.{is_run_of};
ghost use Rattle.records.specs.Handed.{FirstFrom, Bounds, Handed};

use crate::put::Kind;

// Record k is a run of the desk.
fn is_run_of(records: &[u8], desk: u8, k: usize) -> bool
    requires { k < whole_records records.now }
    ensures { result ≡ is_run_of records.now desk k }
{
    let at = 16 * k;
    records[at] == u8::from(Kind::Run) && records[at + 1] == desk
}

// The first record from a place on that is a run of the desk, or that is none, as `wanted` says; the count of whole
// records where there is no such record. That count is no code: it is the place where a stretch ends that none follows.
fn first_from(records: &[u8], desk: u8, from: usize, wanted: bool) -> usize
    requires { from ≤ whole_records records.now }
    ensures { FirstFrom records.now desk from wanted result }
{
    let whole = records.len() / 16;
    for k in from..whole {
        if is_run_of(records, desk, k) == wanted {
            return k;
        }
    }
    whole
}

/// The first byte of the stretch, and the byte after its last.
#[derive(Clone, Copy, Debug, PartialEq, Eq)]
pub struct Stretch {
    pub from: usize,
    pub end: usize,
}

/// Where the stretch of the desk's runs stands.
pub fn stretch_of(records: &[u8], desk: u8) -> Stretch
    ensures { Bounds records.now desk result.from result.end }
{
    let first = first_from(records, desk, 0, true);
    if first < records.len() / 16 {
        let past = first_from(records, desk, first, false);
        return Stretch {
            from: 16 * first,
            end: 16 * past,
        };
    }
    Stretch { from: 0, end: 0 }
}

/// The runs of one desk: takes any bytes and any desk number, refuses nothing and writes nothing.
pub fn desk_runs(records: &[u8], desk: u8) -> &[u8]
    ensures { Handed records.entry desk result }
{
    let Stretch { from, end } = stretch_of(records, desk);
    &records[from..end]
}
