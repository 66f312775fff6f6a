// The lines of a listing, field by field. A field has at most 35 bytes: its word at most 14, its number at most 21.
#![tactic(auto)]

ghost use Rattle.records.specs.Puts.{Puts, Room};
ghost use Rattle.rules.specs.Told.{number_of};
ghost use Rattle.output.specs.Late.{Bounded};
ghost use Rattle.lines.specs.Lines.{piece_text, run_text, total_text, refused_text};

use numbers::lateness;
use records::lent::Lent;
use rules::fault::Refusal;
use rules::{PlanFigures, Run, Span};
use texts::put_field;

/// The line of a piece. Lateness is finish less latest moment.
pub fn put_piece_line(text: &mut Lent, piece: usize, desk: u8, span: Span, latest: i32)
    requires room { Room text.old 211 }
    requires bounded { Bounded span.finish latest }
    ensures { Puts text.old (piece_text piece desk span.start span.finish latest) text.new }
{
    put_field(text, b"piece ", piece);
    put_field(text, b" desk ", desk);
    put_field(text, b" start ", span.start);
    put_field(text, b" finish ", span.finish);
    put_field(text, b" latest ", latest);
    put_field(text, b" late ", lateness(span.finish, latest));
    text.put(b"\n");
}

/// The line of a run.
pub fn put_run_line(text: &mut Lent, desk: u8, run: Run)
    requires { Room text.old 141 }
    ensures { Puts text.old (run_text desk run.piece run.from run.until) text.new }
{
    put_field(text, b"run desk ", desk);
    put_field(text, b" piece ", run.piece);
    put_field(text, b" from ", run.from);
    put_field(text, b" until ", run.until);
    text.put(b"\n");
}

/// The total.
pub fn put_total_line(text: &mut Lent, figures: PlanFigures)
    requires { Room text.old 141 }
    ensures { Puts text.old (total_text figures.pieces figures.runs figures.end figures.worst) text.new }
{
    put_field(text, b"total pieces ", figures.pieces);
    put_field(text, b" runs ", figures.runs);
    put_field(text, b" end ", figures.end);
    put_field(text, b" worst ", figures.worst);
    text.put(b"\n");
}

/// The one line of a refused file.
pub fn put_refused_line(text: &mut Lent, refusal: Refusal)
    requires { Room text.old 71 }
    ensures { Puts text.old (refused_text (number_of refusal.fault) refusal.place) text.new }
{
    put_field(text, b"refused ", u8::from(refusal.fault));
    put_field(text, b" at ", refusal.place);
    text.put(b"\n");
}
