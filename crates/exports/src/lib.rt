// The calls for C and Rust, as calls/deskplan.h declares them. Each hands its work to the proved call and lays the
// answer out as plain numbers; exports_c gives each its name for C.
#![tactic(auto)]

ghost use Rattle.std.specs.Prelude.{◌≡◌, ◌∷◌, ◌-◌, ◌≤◌, ◌<◌, ◌^◌, pos, replicate};
ghost use Rattle.rules.specs.Told.{number_of};
ghost use Rattle.exports.specs.Calls.{PlanCall, SheetCall, RunsCall, ListingCall, WriteCall};

use rules::fault::Refusal;

// A refusal as a row of numbers: its number on the list, its place, and every other number zero.
fn refused<const N: usize>(refusal: Refusal) -> [i64; N]
    requires both { 2 ≤ N }
    requires place { refusal.place < 2 ^ 63 }
    ensures { result ≡ pos (number_of refusal.fault) ∷ pos refusal.place ∷ replicate (N - 2) (pos 0) }
{
    let mut row = [0; N];
    row[0] = i64::from(u8::from(refusal.fault));
    row[1] = refusal.place as i64;
    row
}

/// number, place, pieces, runs, end, worst
pub fn desk_plan(file: &[u8], buffer: &mut [u8], answer: &mut [i64; 6])
    ensures { PlanCall file.now buffer.old buffer.new answer.new }
{
    *answer = match planner::plan(file, buffer) {
        Ok(figures) => [
            0,
            0,
            i64::from(figures.pieces),
            i64::from(figures.runs),
            i64::from(figures.end),
            i64::from(figures.worst),
        ],
        Err(refusal) => refused(refusal),
    };
}

/// number, place, blocks, runs, worst
pub fn desk_blocks(file: &[u8], desk: u8, buffer: &mut [u8], answer: &mut [i64; 5])
    ensures { SheetCall file.now desk buffer.old buffer.new answer.new }
{
    *answer = match sheets::sheet::block_sheet(file, desk, buffer) {
        Ok(figures) => [
            0,
            0,
            i64::from(figures.blocks),
            i64::from(figures.runs),
            i64::from(figures.worst),
        ],
        Err(refusal) => refused(refusal),
    };
}

/// first byte, byte after the last
pub fn desk_runs(records: &[u8], desk: u8, stretch: &mut [u64; 2])
    ensures { RunsCall records.now desk stretch.new }
{
    let found = records::stretch::stretch_of(records, desk);
    *stretch = [found.from as u64, found.end as u64];
}

/// how many bytes the text took
pub fn desk_listing(file: &[u8], text: &mut [u8], written: &mut [u64; 1])
    ensures { ListingCall file.now text.old text.new written.new }
{
    *written = [deskplan_text::write_listing(file, text) as u64];
}

/// number, place, bytes
pub fn desk_write(pieces: &[u32], links: &[u32], buffer: &mut [u8], answer: &mut [i64; 3])
    ensures { WriteCall pieces.now links.now buffer.old buffer.new answer.new }
{
    *answer = match writer::file::write_file(pieces, links, buffer) {
        Ok(bytes) => [0, 0, i64::from(bytes)],
        Err(refusal) => refused(refusal),
    };
}
