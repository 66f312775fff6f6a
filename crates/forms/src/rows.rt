// The rows of a form: all of them judged before the first byte is written, and their records put into the lent buffer.
ghost use Rattle.std.specs.Prelude.{◌≡◌, ℕ, ◌+◌, ◌*◌, ◌/◌, ◌<◌, ◌≤◌, length};
ghost use Rattle.records.specs.Puts.{Puts, Room};
ghost use Rattle.forms.specs.Judged.{RowsJudged};
ghost use Rattle.forms.specs.Written.{rows_bytes};

use crate::row::{Typed, judge_row};
use judge::Counts;
use records::lent::Lent;
use rules::fault::Refusal;

/// The first refusal among rows of one kind, behind so many pieces and links, whose records stand before theirs.
pub fn judge_rows<const N: usize, R: Typed<N>>(rows: &[u32], before: Counts) -> Result<(), Refusal>
    requires { before.pieces + before.links ≤ 256 }
    ensures { RowsJudged R.item R.row_of R.added rows.now (length rows.now / N) before result }
{
    let (whole, _) = rows.as_chunks::<N>();
    for (i, row) in whole.iter().enumerate() {
        if let Err(fault) = judge_row::<N, R>(row, R::counts(before, i)) {
            return Err(Refusal {
                fault,
                place: (before.pieces + before.links + i) as u64,
            });
        }
    }
    Ok(())
}

/// Puts the records of rows of one kind, one behind the other.
pub fn put_rows<const N: usize, R: Typed<N>>(rows: &[u32], lent: &mut Lent)
    requires room { Room lent.old (16 * (length rows.now / N)) }
    requires held { (i : ℕ) → i < length rows.now / N → R.Held (R.row_of rows.now i) }
    ensures { Puts lent.old (rows_bytes (λ i. R.bytes (R.row_of rows.now i)) (length rows.now / N)) lent.new }
{
    let (whole, _) = rows.as_chunks::<N>();
    for row in whole {
        R::record(row).put(lent);
    }
}
