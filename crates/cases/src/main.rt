// The boundary cases of the rules page ("Run by a program"), on the calls for plans, listings and block sheets: one
// line for each, with what was tried and how it was answered. What they must print stands in `stdout`, written by hand
// from the page.
#![tactic(auto)]

ghost use Rattle.std.specs.Prelude.{◌≤◌};

use deskplan_text::write_listing;
use planner::plan;
use records::put::{Kind, Row};
use rules::fault::Refusal;
use rules::{Link, Piece};
use sheets::sheet::block_sheet;
use std::io;

// A piece of one slot on desk 0.
const ONE: Piece = Piece {
    desk: 0,
    duration: 1,
    release: 0,
    due: 0,
};

fn piece_bytes(piece: Piece) -> [u8; 16] {
    let row = Row {
        kind: Kind::Piece,
        desk: piece.desk,
        number: piece.duration,
        words: [piece.release, piece.due, 0],
    };
    row.to_bytes()
}

fn link_bytes(link: Link) -> [u8; 16] {
    let row = Row {
        kind: Kind::Link,
        desk: 0,
        number: link.before,
        words: [
            u32::from(link.after) + 65536 * u32::from(link.handover),
            0,
            0,
        ],
    };
    row.to_bytes()
}

fn print_refusal(rt: &impl Print, refusal: Refusal) -> io::Result<()> {
    let fault = u8::from(refusal.fault);
    let place = refusal.place;
    print!(rt; " refused {fault} at {place}")
}

// The plan of a file in a lent buffer, and how it was answered behind its name.
fn try_file(
    rt: &impl Print,
    name: &str,
    value: usize,
    file: &[u8],
    buffer: &mut [u8],
) -> io::Result<()> {
    let answer = plan(file, buffer);
    print!(rt; "{name}{value}")?;
    match answer {
        Ok(figures) => {
            print!(rt;
                " accepted: pieces {} runs {} end {}",
                figures.pieces, figures.runs, figures.end
            )
        }
        Err(refusal) => print_refusal(rt, refusal),
    }
}

// A file of one piece, in a buffer of 48 bytes; how many bytes its listing has.
fn try_piece(rt: &impl Print, name: &str, value: u32, piece: Piece) -> io::Result<()> {
    let file = piece_bytes(piece);
    let mut buffer = [0u8; 48];
    try_file(rt, name, value as usize, &file, &mut buffer)?;
    let mut text = [0u8; 131072];
    let bytes = write_listing(&file, &mut text);
    println!(rt; " listing {bytes}")
}

// So many pieces of one slot on desk 0, in a buffer of so many bytes.
fn try_pieces(rt: &impl Print, name: &str, value: usize, n: usize, room: usize) -> io::Result<()>
    requires { (n ≤ 257) × (room ≤ 12288) }
{
    let pieces = [piece_bytes(ONE); 257];
    let mut buffer = [0u8; 12288];
    try_file(
        rt,
        name,
        value,
        pieces[..n].as_flattened(),
        &mut buffer[..room],
    )?;
    println!(rt; "")
}

// Two pieces of one slot on two desks, and behind them links from the first to the second.
fn linked_file(handover: u16) -> [[u8; 16]; 1027] {
    let link = Link {
        before: 0,
        after: 1,
        handover,
    };
    let mut records = [link_bytes(link); 1027];
    records[0] = piece_bytes(ONE);
    records[1] = piece_bytes(Piece { desk: 1, ..ONE });
    records
}

// The pieces of that file and so many of its links.
fn try_links(rt: &impl Print, name: &str, value: usize, m: usize, handover: u16) -> io::Result<()>
    requires { m ≤ 1025 }
{
    let records = linked_file(handover);
    let mut buffer = [0u8; 96];
    try_file(
        rt,
        name,
        value,
        records[..2 + m].as_flattened(),
        &mut buffer,
    )?;
    println!(rt; "")
}

// The block sheet of a desk, of a file of one piece on desk 31.
fn try_sheet(rt: &impl Print, desk: u8, buffer: &mut [u8]) -> io::Result<()> {
    let file = piece_bytes(Piece { desk: 31, ..ONE });
    let answer = block_sheet(&file, desk, buffer);
    print!(rt; "sheet of desk {desk} in a buffer of {}", buffer.len())?;
    match answer {
        Ok(figures) => {
            print!(rt;
                " accepted: blocks {} runs {}",
                figures.blocks, figures.runs
            )?
        }
        Err(refusal) => print_refusal(rt, refusal)?,
    }
    println!(rt; "")
}

fn try_single_pieces(rt: &impl Print) -> io::Result<()> {
    for duration in [960u16, 961, 0] {
        try_piece(
            rt,
            "duration ",
            u32::from(duration),
            Piece { duration, ..ONE },
        )?;
    }
    for release in [40000u32, 40001, 65541] {
        try_piece(rt, "release ", release, Piece { release, ..ONE })?;
    }
    for due in [40000u32, 40001] {
        try_piece(rt, "due ", due, Piece { due, ..ONE })?;
    }
    for desk in [31u8, 32] {
        try_piece(rt, "desk ", u32::from(desk), Piece { desk, ..ONE })?;
    }
    Ok(())
}

fn main(rt: HostRuntime) -> io::Result<()> {
    try_single_pieces(&rt)?;
    for handover in [480u16, 481] {
        try_links(&rt, "handover ", usize::from(handover), 1, handover)?;
    }
    try_links(&rt, "links ", 1024, 1024, 0)?;
    try_links(&rt, "links ", 1025, 1025, 0)?;
    try_pieces(&rt, "pieces ", 256, 256, 12288)?;
    try_pieces(&rt, "pieces ", 257, 257, 12288)?;
    try_pieces(&rt, "256 pieces in a buffer of ", 12287, 256, 12287)?;
    try_pieces(&rt, "1 piece in a buffer of ", 48, 1, 48)?;
    try_pieces(&rt, "1 piece in a buffer of ", 47, 1, 47)?;
    let mut enough = [0u8; 48];
    let mut short = [0u8; 47];
    for desk in [31u8, 0, 32] {
        try_sheet(&rt, desk, &mut enough)?;
        try_sheet(&rt, desk, &mut short)?;
    }
    Ok(())
}
