// The boundary cases of the writer: the first sheet of the rules page from its rows, every value at its bound and
// beyond it, as many rows as there may be and one more, and buffers of just the room and one byte less. One line for
// each, with how it was answered. What they must print stands in `stdout`, written by hand from the page and the
// request.
#![tactic(auto)]

ghost use Rattle.std.specs.Prelude.{◌*◌, ◌≤◌, length};

use rules::fault::Refusal;
use std::io;
use writer::file::write_file;

// How the case was answered, behind its name.
fn print_answer(rt: &impl Print, answer: Result<u32, Refusal>) -> io::Result<()> {
    match answer {
        Ok(bytes) => println!(rt; " written: bytes {bytes}"),
        Err(refusal) => {
            let fault = u8::from(refusal.fault);
            let place = refusal.place;
            println!(rt; " refused {fault} at {place}")
        }
    }
}

// All bytes of a buffer.
fn print_bytes(rt: &impl Print, buffer: &[u8]) -> io::Result<()> {
    for byte in buffer {
        print!(rt; " {byte}")?;
    }
    println!(rt; "")
}

// A form in a lent buffer.
fn try_form(
    rt: &impl Print,
    name: &str,
    value: usize,
    pieces: &[u32],
    links: &[u32],
    buffer: &mut [u8],
) -> io::Result<()> {
    let answer = write_file(pieces, links, buffer);
    print!(rt; "{name}{value}")?;
    print_answer(rt, answer)
}

// The first sheet of the rules page in a buffer of marked bytes, and all that it holds then.
fn try_sheet(rt: &impl Print, buffer: &mut [u8]) -> io::Result<()> {
    let pieces = [0u32, 4, 0, 20, 0, 2, 1, 5, 1, 3, 0, 12];
    let links = [0u32, 2, 2];
    let room = buffer.len();
    try_form(rt, "P1 in a buffer of ", room, &pieces, &links, buffer)?;
    print_bytes(rt, buffer)
}

// A form of one piece.
fn try_piece(rt: &impl Print, name: &str, value: u32, piece: [u32; 4]) -> io::Result<()> {
    let mut buffer = [0u8; 16];
    try_form(rt, name, value as usize, &piece, &[], &mut buffer)
}

// A form of one piece and one link.
fn try_link(rt: &impl Print, name: &str, value: u32, link: [u32; 3]) -> io::Result<()> {
    let piece = [0u32, 1, 0, 0];
    let mut buffer = [0u8; 32];
    try_form(rt, name, value as usize, &piece, &link, &mut buffer)
}

// So many numbers of pieces of one slot on desk 0, and of links, each from piece 0 to itself, in a buffer of so many
// bytes.
fn try_numbers(rt: &impl Print, pieces: usize, links: usize, room: usize) -> io::Result<()>
    requires { (pieces ≤ 1028) × (links ≤ 3075) × (room ≤ 20480) }
{
    let rows = [[0u32, 1, 0, 0]; 257];
    let tied = [0u32; 3075];
    let mut buffer = [0u8; 20480];
    print!(rt; "numbers {pieces}")?;
    try_form(
        rt,
        " and ",
        links,
        &rows.as_flattened()[..pieces],
        &tied[..links],
        &mut buffer[..room],
    )
}

fn try_counts(rt: &impl Print) -> io::Result<()> {
    try_numbers(rt, 0, 0, 0)?;
    try_numbers(rt, 1024, 3072, 20480)?;
    try_numbers(rt, 1024, 3072, 20479)?;
    try_numbers(rt, 1028, 3075, 20480)?;
    try_numbers(rt, 1024, 3075, 20480)?;
    try_numbers(rt, 1024, 3074, 20480)?;
    try_numbers(rt, 1023, 3072, 20479)
}

fn main(rt: HostRuntime) -> io::Result<()> {
    let mut more = [165u8; 66];
    let mut less = [165u8; 63];
    try_sheet(&rt, &mut more)?;
    try_sheet(&rt, &mut less)?;
    for desk in [31u32, 32, 256] {
        try_piece(&rt, "desk ", desk, [desk, 1, 0, 0])?;
    }
    for duration in [960u32, 961, 0, 65537] {
        try_piece(&rt, "duration ", duration, [0, duration, 0, 0])?;
    }
    for release in [40000u32, 40001] {
        try_piece(&rt, "release ", release, [0, 1, release, 0])?;
    }
    for due in [40000u32, 40001] {
        try_piece(&rt, "due ", due, [0, 1, 0, due])?;
    }
    for handover in [480u32, 481] {
        try_link(&rt, "handover ", handover, [0, 0, handover])?;
    }
    try_link(&rt, "piece before ", 1, [1, 0, 0])?;
    try_link(&rt, "piece after ", 65536, [0, 65536, 0])?;
    try_counts(&rt)
}
