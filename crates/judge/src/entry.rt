// What a record of known kind holds, a piece or a link, and the judgement of such a record, written once for both.
ghost use Rattle.std.specs.Prelude.{◌≡◌, ℕ, List, length, IfOk};
ghost use Rattle.rules.specs.File.{Kind};
ghost use Rattle.rules.specs.Job.{Job};
ghost use Rattle.rules.specs.Reading.{kind_fault, order_fault, value_fault, zero_fault, record_fault, contents};
ghost use Rattle.rules.specs.Told.{fault_of, item_of_record};
ghost use Rattle.rules.specs.Answers.{Item};
ghost use Rattle.judge.specs.Says.{Says, fault_in};

use crate::Counts;
use rules::Record;
use rules::fault::Fault;

/// A piece or a link: what its record says, and what is judged of that record, each for itself.
pub trait Entry: Copy {
    // Its kind on the page.
    ghost kind: { Kind };

    // What a record says, read as this kind.
    ghost said: { List ℕ → Self };

    // The item of the page that it is.
    ghost item: { Self → Item };

    // Its value fault, with these pieces and links read before it.
    ghost fault: { Job → Self → ℕ };

    /// What a record says.
    fn said(r: &[u8]) -> Self
        requires { length r.now ≡ 16 }
        ensures { result ≡ said r.now };

    /// Its place in the file, behind so many pieces and links.
    fn judge_order(before: Counts) -> Result<(), Fault>
        ensures { Says before (fault_of result) (order_fault kind) };

    /// Its values.
    fn judge_values(self, before: Counts) -> Result<(), Fault>
        ensures { Says before (fault_of result) (λ J. fault J self) };

    /// The bytes of its record that must be zero.
    fn judge_zeros(r: &[u8]) -> Result<(), Fault>
        requires { length r.now ≡ 16 }
        ensures { fault_of result ≡ zero_fault kind r.now };

    /// The record that holds it.
    fn into_record(self) -> Record
        ensures { item_of_record result ≡ item self };

    // What ties these members to the page: the kind is known, and its values and contents are those of its record.
    ghost known: { kind_fault kind ≡ 0 };

    ghost valued: { (J : Job) (r : List ℕ) → value_fault kind J r ≡ fault J (said r) };

    ghost holds: { (r : List ℕ) → contents kind r ≡ item (said r) };
}

/// The whole judgement of a record behind so many pieces and links, in the page's order: its order, its values, its
/// zero bytes. The first fault decides; without one the record says this.
pub fn judge_record<E: Entry>(r: &[u8], before: Counts) -> Result<E, Fault>
    requires { length r.now ≡ 16 }
    ensures fault { Says before (fault_in result) (λ J. record_fault E.kind J r.now) }
    ensures said { IfOk result (λ e. e ≡ E.said r.now) }
{
    let entry = E::said(r);
    E::judge_order(before)?;
    entry.judge_values(before)?;
    E::judge_zeros(r)?;
    Ok(entry)
}
