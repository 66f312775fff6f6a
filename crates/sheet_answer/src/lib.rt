// A block sheet answered: its records of blocks and of runs in the lent buffer, and its figures; before that 13 for a desk
// above 31 and 12 for a buffer that is too short.
#![tactic(auto)]

ghost use Rattle.std.specs.Prelude.{List, ◌≡◌, ℕ, ◌≤◌, length, Ok};
ghost use Rattle.rules.specs.Told.{fault_of, block_answer_told};
ghost use Rattle.demands.specs.Promises.{BlockPromise};
ghost use Rattle.sheet_answer.specs.Refused.{sheet_fault};
ghost use Rattle.sheet_answer.specs.SheetFile.{SheetFile};

use crate::rows::put_rows;
use method::BlockRow;
use records::lent::Lent;
use rules::fault::Fault;
use rules::{BlockFigures, Run};

pub mod rows;

/// Whether a call on an accepted file of so many pieces is good: 13, then 12 where it is not.
pub fn sheet_fault(desk: u8, pieces: usize, room: usize) -> Result<(), Fault>
    requires { pieces ≤ 256 }
    ensures { fault_of result ≡ sheet_fault desk pieces room }
{
    if 31 < desk {
        return Err(Fault::AskedDesk);
    }
    if room < 48 * pieces {
        return Err(Fault::BufferTooShort);
    }
    Ok(())
}

/// With room for its records: writes them and answers.
pub fn answer_sheet(
    desk: u8,
    rows: &[BlockRow],
    runs: &[Run],
    worst: i32,
    buffer: &mut [u8],
) -> BlockFigures
    requires { (file : List ℕ) × SheetFile file desk rows.now runs.now worst (length buffer.old) }
    ensures { (file : List ℕ) → SheetFile file desk rows.now runs.now worst (length buffer.old)
        → BlockPromise file desk buffer.old (block_answer_told (Ok result)) buffer.new }
{
    let mut lent = Lent {
        bytes: buffer,
        at: 0,
    };
    put_rows(rows, desk, &mut lent);
    put_rows(runs, desk, &mut lent);
    BlockFigures {
        blocks: rows.len() as u32,
        runs: runs.len() as u32,
        worst,
    }
}
