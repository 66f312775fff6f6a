// One row of a form, of a piece or of a link: judged as the reader judges its record, and what that
// record is.
ghost use Rattle.std.specs.Prelude.{◌≡◌, ◌+◌, ◌*◌, ◌^◌, ◌<◌, ◌≤◌, ℕ, List, length, get_or};
ghost use Rattle.rules.specs.Job.{Job};
ghost use Rattle.rules.specs.Reading.{order_fault, first_fault};
ghost use Rattle.rules.specs.Form.{offer_fault};
ghost use Rattle.rules.specs.Told.{fault_of};
ghost use Rattle.judge.specs.Says.{Says};
ghost use Rattle.records.specs.Laid.{row_bytes};
ghost use Rattle.forms.specs.Rows.{AddsInTurn, CountsOn};

use judge::Counts;
use judge::entry::Entry;
use records::put::Row;
use rules::fault::Fault;

/// An entry that a form types as a row of N numbers.
pub trait Typed<const N: usize>: Entry {
    // What a row says, and row i of the rows of a form.
    ghost typed: { List ℕ → Self };

    ghost row_of: { List ℕ → ℕ → Self };

    // Its values have room in the fields of its record, and the bytes of that record.
    ghost Held: { Self → Type 0 };

    ghost bytes: { Self → List ℕ };

    // A job with these behind its own.
    ghost added: { Job → List Self → Job };

    /// The values of a row.
    fn judge_typed(row: &[u32; N], before: Counts) -> Result<(), Fault>
        ensures { Says before (fault_of result) (λ J. Self.fault J (typed row.now)) };

    /// The record of a row.
    fn record(row: &[u32; N]) -> Row
        requires { Held (typed row.now) }
        ensures { row_bytes result ≡ bytes (typed row.now) };

    /// The counts behind so many rows more.
    fn counts(before: Counts, rows: usize) -> Counts
        requires { before.pieces + before.links + rows < 2 ^ 64 }
        ensures { CountsOn added before rows result };

    // Such a row is short, and it says what row i says where its numbers are those of row i.
    ghost width: { (0 < N) × (N ≤ 4) };

    ghost placed: { (row rows : List ℕ) (i : ℕ) → ((j : ℕ) → j < N → get_or row j 0 ≡ get_or rows (N * i + j) 0)
        → typed row ≡ row_of rows i };

    // An offer is judged for its order, then its values; its record has 16 bytes; offers are added in their order.
    ghost offered: { (J : Job) (e : Self)
        → offer_fault J (Self.item e) ≡ first_fault (order_fault Self.kind J) (Self.fault J e) };

    ghost sized: { (e : Self) → length (bytes e) ≡ 16 };

    ghost adds: { AddsInTurn Self.item added };
}

/// A row judged behind so many pieces and links: its order, then its values.
pub fn judge_row<const N: usize, R: Typed<N>>(row: &[u32; N], before: Counts) -> Result<(), Fault>
    ensures { Says before (fault_of result) (λ J. offer_fault J (R.item (R.typed row.now))) }
{
    R::judge_order(before)?;
    R::judge_typed(row, before)
}
