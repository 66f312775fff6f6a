// The reader's answer for one record: what it says, or its refusal, or that the file is at its end.
ghost use Rattle.std.specs.Prelude.{◌≡◌, length};
ghost use Rattle.rules.specs.Reading.{judged, item_at};
ghost use Rattle.rules.specs.Told.{item_of};
ghost use Rattle.judge.specs.Says.{Says};
ghost use Rattle.cursor.specs.JudgedAs.{judged_as, item_told};

use judge::Counts;
use judge::entry::{Entry, judge_record};
use rules::fault::{Fault, Refusal};
use rules::{Link, Piece, Record};

// Record k as an entry of one kind.
fn entry_item<E: Entry>(r: &[u8], k: u64, before: Counts) -> Result<Record, Refusal>
    requires { length r.now ≡ 16 }
    ensures { Says before (item_told result) (judged_as E.kind k r.now) }
{
    match judge_record::<E>(r, before) {
        Ok(entry) => Ok(entry.into_record()),
        Err(fault) => Err(Refusal { fault, place: k }),
    }
}

/// Record k, its bytes r, with so many pieces and links read before it.
#[tactic(auto, unfolding(rules::specs::Reading::judged, rules::specs::File::kind_of))]
pub fn record_item(r: &[u8], k: u64, before: Counts) -> Result<Record, Refusal>
    requires { length r.now ≡ 16 }
    ensures { Says before (item_told result) (λ J. judged J k r.now) }
{
    // On the byte and its ranges, as the rules page names it: `Kind` has kinds that no job file has.
    match r[0] {
        1 => entry_item::<Piece>(r, k, before),
        2 => entry_item::<Link>(r, k, before),
        0 | 3..=255 => Err(Refusal {
            fault: Fault::UnknownKind,
            place: k,
        }),
    }
}

/// Record k of a file, or the end behind its last record.
#[tactic(auto, unfolding(rules::specs::Reading::item_at, rules::specs::Reading::at_end, rules::specs::Words::when))]
pub fn item_at(file: &[u8], k: usize, before: Counts) -> Result<Option<Record>, Refusal>
    ensures { Says before (item_of result) (item_at file.now k) }
{
    let whole = file.len() / 16;
    if k < whole {
        let record = record_item(&file[16 * k..][..16], k as u64, before)?;
        return Ok(Some(record));
    }
    if file.len() % 16 != 0 {
        return Err(Refusal {
            fault: Fault::BytesLeft,
            place: whole as u64,
        });
    }
    Ok(None)
}
