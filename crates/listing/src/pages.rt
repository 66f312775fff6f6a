// The pages of a listing out of the tables of a finished plan: the lines of all pieces by number, the run lines by desk
// and then by start. The log has the runs in the order in which they begin, so each desk's runs stand in it by start.
ghost use Rattle.std.specs.Prelude.{ℕ, ◌+◌, ◌*◌, ◌≤◌, ◌<◌, pos, length, get_or};
ghost use Rattle.records.specs.Puts.{Puts, Room};
ghost use Rattle.rules.specs.Tables.{desks_of, starts_of, finishes_of, run_pieces, run_froms, run_untils};
ghost use Rattle.output.specs.Late.{Bounded};
ghost use Rattle.output.specs.Written.{LogFits};
ghost use Rattle.lines.specs.Lines.{piece_lines_in, desk_lines_in, run_lines_in};

use lines::{put_piece_line, put_run_line};
use records::lent::Lent;
use rules::{Piece, Run, Span};

/// The lines of all pieces.
pub fn put_piece_lines(pieces: &[Piece], spans: &[Span; 256], latests: &[i32; 256], text: &mut Lent)
    requires few { length pieces.now ≤ 256 }
    requires room { Room text.old (211 * length pieces.now) }
    requires bounded { (i : ℕ) → i < length pieces.now
        → Bounded (get_or (finishes_of spans.now) i 0) (get_or latests.now i (pos 0)) }
    ensures { Puts text.old (piece_lines_in (length pieces.now) (desks_of pieces.now) (starts_of spans.now)
        (finishes_of spans.now) latests.now) text.new }
{
    for (i, piece) in pieces.iter().enumerate() {
        put_piece_line(text, i, piece.desk, spans[i], latests[i]);
    }
}

// The run lines of one desk.
fn put_desk_lines(desk: u8, pieces: &[Piece], runs: &[Run], text: &mut Lent)
    requires log { LogFits (length runs.now) (run_pieces runs.now) (length pieces.now) }
    requires room { Room text.old (length (desk_lines_in (length runs.now) (desks_of pieces.now) (run_pieces runs.now)
        (run_froms runs.now) (run_untils runs.now) desk) + 141) }
    ensures { Puts text.old (desk_lines_in (length runs.now) (desks_of pieces.now) (run_pieces runs.now)
        (run_froms runs.now) (run_untils runs.now) desk) text.new }
{
    for run in runs {
        if pieces[usize::from(run.piece)].desk == desk {
            put_run_line(text, desk, *run);
        }
    }
}

/// All run lines, by desk.
pub fn put_run_lines(pieces: &[Piece], runs: &[Run], text: &mut Lent)
    requires log { LogFits (length runs.now) (run_pieces runs.now) (length pieces.now) }
    requires room { Room text.old (length (run_lines_in 32 (length runs.now) (desks_of pieces.now)
        (run_pieces runs.now) (run_froms runs.now) (run_untils runs.now)) + 141) }
    ensures { Puts text.old (run_lines_in 32 (length runs.now) (desks_of pieces.now) (run_pieces runs.now)
        (run_froms runs.now) (run_untils runs.now)) text.new }
{
    for desk in 0..32 {
        put_desk_lines(desk, pieces, runs, text);
    }
}
