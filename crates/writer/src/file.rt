// The job file of a form, in a lent buffer. Everything is judged before the first byte is written.
ghost use Rattle.std.specs.Prelude.{◌≡◌};
ghost use Rattle.rules.specs.Job.{accepted};
ghost use Rattle.rules.specs.Form.{form_job, form_outcome};
ghost use Rattle.rules.specs.Told.{write_answer_told};
ghost use Rattle.demands.specs.Promises.{WritePromise};
ghost use Rattle.forms.specs.Judged.{outcome_or};

use forms::rows::{judge_rows, put_rows};
use judge::Counts;
use records::lent::Lent;
use rules::fault::{Fault, Refusal};
use rules::{Link, Piece};

// The form judged for itself: its rows in the order of the file, then 1, a row cut short.
fn judge_form(pieces: &[u32], links: &[u32]) -> Result<(), Refusal>
    ensures { form_outcome pieces.now links.now ≡ outcome_or result (accepted (form_job pieces.now links.now)) }
{
    let front = Counts {
        pieces: 0,
        links: 0,
    };
    judge_rows::<4, Piece>(pieces, front)?;
    let behind = Counts {
        pieces: pieces.len() / 4,
        links: 0,
    };
    judge_rows::<3, Link>(links, behind)?;
    let left = pieces.len() % 4 + links.len() % 3;
    if left != 0 {
        return Err(Refusal {
            fault: Fault::BytesLeft,
            place: (behind.pieces + links.len() / 3) as u64,
        });
    }
    Ok(())
}

/// THE WRITER: takes every form and every lent buffer, and answers the bytes of the file or refuses by a fault on the
/// list.
pub fn write_file(pieces: &[u32], links: &[u32], buffer: &mut [u8]) -> Result<u32, Refusal>
    ensures { WritePromise pieces.now links.now buffer.old (write_answer_told result) buffer.new }
{
    judge_form(pieces, links)?;
    let behind = 16 * (pieces.len() / 4);
    let bytes = behind + 16 * (links.len() / 3);
    if buffer.len() < bytes {
        return Err(Refusal {
            fault: Fault::NoRoomForFile,
            place: 0,
        });
    }
    let mut lent = Lent {
        bytes: buffer,
        at: 0,
    };
    put_rows::<4, Piece>(pieces, &mut lent);
    put_rows::<3, Link>(links, &mut lent);
    Ok(bytes as u32)
}
