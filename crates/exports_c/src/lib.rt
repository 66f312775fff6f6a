// The exported calls under their names for C, as calls/deskplan.h declares them: each is the call of the same name in
// exports, with the same promise.
#![tactic(auto)]

ghost use Rattle.exports.specs.Calls.{PlanCall, SheetCall, RunsCall, ListingCall, WriteCall};

// number, place, pieces, runs, end, worst
#[unsafe(no_mangle)]
pub extern "C" fn desk_plan(file: &[u8], buffer: &mut [u8], answer: &mut [i64; 6])
    ensures { PlanCall file.now buffer.old buffer.new answer.new }
{
    exports::desk_plan(file, buffer, answer)
}

// number, place, blocks, runs, worst
#[unsafe(no_mangle)]
pub extern "C" fn desk_blocks(file: &[u8], desk: u8, buffer: &mut [u8], answer: &mut [i64; 5])
    ensures { SheetCall file.now desk buffer.old buffer.new answer.new }
{
    exports::desk_blocks(file, desk, buffer, answer)
}

// first byte, byte after the last
#[unsafe(no_mangle)]
pub extern "C" fn desk_runs(records: &[u8], desk: u8, stretch: &mut [u64; 2])
    ensures { RunsCall records.now desk stretch.new }
{
    exports::desk_runs(records, desk, stretch)
}

// how many bytes the text took
#[unsafe(no_mangle)]
pub extern "C" fn desk_listing(file: &[u8], text: &mut [u8], written: &mut [u64; 1])
    ensures { ListingCall file.now text.old text.new written.new }
{
    exports::desk_listing(file, text, written)
}

// number, place, bytes
#[unsafe(no_mangle)]
pub extern "C" fn desk_write(
    pieces: &[u32],
    links: &[u32],
    buffer: &mut [u8],
    answer: &mut [i64; 3],
)
    ensures { WriteCall pieces.now links.now buffer.old buffer.new answer.new }
{
    exports::desk_write(pieces, links, buffer, answer)
}
