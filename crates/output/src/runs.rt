// Run records by desk and then by start.
ghost use Rattle.std.specs.Prelude.{◌+◌, ◌≤◌, ◌<◌, ◌≡◌, length};
ghost use Rattle.records.specs.Puts.{Puts, Room};
ghost use Rattle.rules.specs.Tables.{desks_of, run_pieces, run_froms, run_untils};
ghost use Rattle.output.specs.Chained.{RunsChained};
ghost use Rattle.output.specs.Written.{LogFits, desk_runs_in, runs_in};

use crate::chains::RunChains;
use records::lent::Lent;
use records::put::{Kind, Row};
use rules::{Piece, Run};

// The run records of one desk along its chain. The pieces are what the contract asks the chains of.
fn put_desk_runs(desk: u8, pieces: &[Piece], runs: &[Run], chains: &RunChains, buffer: &mut Lent)
    requires log_fits { LogFits (length runs.now) (run_pieces runs.now) (length pieces.now) }
    requires chained { RunsChained (desks_of pieces.now) (run_pieces runs.now) (length runs.now) 0 chains.now.first
        chains.now.later }
    requires room { Room buffer.old (length (desk_runs_in (length runs.now) (desks_of pieces.now) (run_pieces runs.now)
        (run_froms runs.now) (run_untils runs.now) desk)) }
    ensures { Puts buffer.old (desk_runs_in (length runs.now) (desks_of pieces.now) (run_pieces runs.now)
        (run_froms runs.now) (run_untils runs.now) desk) buffer.new }
{
    let mut next = chains.first(desk);
    while let Some(k) = next {
        let run = runs[k];
        let row = Row {
            kind: Kind::Run,
            desk,
            number: run.piece,
            words: [run.from, run.until, 0],
        };
        row.put(buffer);
        next = chains.next(k);
    }
}

/// Puts all run records, by desk.
pub fn put_runs(pieces: &[Piece], runs: &[Run], buffer: &mut Lent)
    requires log_fits { LogFits (length runs.now) (run_pieces runs.now) (length pieces.now) }
    requires room { Room buffer.old (length (runs_in 32 (length runs.now) (desks_of pieces.now) (run_pieces runs.now)
        (run_froms runs.now) (run_untils runs.now))) }
    ensures { Puts buffer.old (runs_in 32 (length runs.now) (desks_of pieces.now) (run_pieces runs.now)
        (run_froms runs.now) (run_untils runs.now)) buffer.new }
{
    let chains = RunChains::new(pieces, runs);
    for desk in 0..32 {
        put_desk_runs(desk, pieces, runs, &chains, buffer);
    }
}
