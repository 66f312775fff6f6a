// Who is set aside of a block: among the pieces without a piece after them by a direct link in the same block, the one
// with least cost at the block's end (greatest latest moment; highest number where equal). And the block without it.
ghost use Rattle.std.specs.Prelude.{ℕ, Bool, List, ◌≡◌, length};
ghost use Rattle.std.specs.Option.{option_copied};
ghost use Rattle.rules.specs.Rings.{linked_by};
ghost use Rattle.rules.specs.Blocks.{costs_less, cheaper};
ghost use Rattle.entries.specs.Lent.{meant};
ghost use Rattle.entries.specs.declared.list.Entry.{Entry as Struct};
ghost use Rattle.blocksteps.specs.Aside.{Marks, no_mark, member_mark, led_mark, Tied, Known, optional, Aside, Without};

use entries::list::{Entry, put_entry, take_entry};
use rules::Link;

/// What a block says of a piece.
#[derive(Clone, Copy, Debug, PartialEq, Eq)]
pub enum Mark {
    /// It is in another block, or in none.
    Outside,
    Member,
    /// It is a member, and a piece after it by a direct link is one too.
    Led,
}

fn mark_members(entries: &[Entry], marks: &mut [Mark; 256])
    requires known { Known entries.now }
    requires clear { Marks marks.old no_mark }
    ensures { Marks marks.new (member_mark entries.now) }
{
    for entry in entries {
        marks[usize::from(entry.number)] = Mark::Member;
    }
}

// Each link is looked at once: the piece before it is marked where both its pieces are in the block.
fn mark_led(links: &[Link], marks: &mut [Mark; 256])
    requires tied { Tied links.now }
    ensures { (entries : List Struct) → Marks marks.old (member_mark entries)
        → Marks marks.new (led_mark (linked_by links.now) entries) }
{
    for link in links {
        let before = usize::from(link.before);
        let after = usize::from(link.after);
        if marks[before] != Mark::Outside && marks[after] != Mark::Outside {
            marks[before] = Mark::Led;
        }
    }
}

// The entry costs less than the other at the block's end.
fn costs_less(entry: &Entry, other: &Entry) -> bool
    ensures { result ≡ costs_less (meant entry.now) (meant other.now) }
{
    (other.latest, other.number) < (entry.latest, entry.number)
}

// The cheaper of an entry and the best so far. By reference: an entry handed on by value was copied at each look.
fn cheaper<'a>(entry: &'a Entry, best: Option<&'a Entry>) -> &'a Entry
    ensures { meant result.now ≡ cheaper (meant entry.now) (optional meant (option_copied best.entry)) }
{
    let Some(best) = best else {
        return entry;
    };
    if costs_less(best, entry) { best } else { entry }
}

// The cheapest of those that are members and led by none.
fn cheapest(entries: &[Entry], marks: &[Mark; 256]) -> Option<Entry>
    requires { Known entries.now }
    ensures { (follows : ℕ → ℕ → Bool) → Marks marks.now (led_mark follows entries.now)
        → Aside follows entries.now result }
{
    let mut best = None;
    for entry in entries.iter().rev() {
        if marks[usize::from(entry.number)] == Mark::Member {
            best = Some(cheaper(entry, best));
        }
    }
    best.copied()
}

/// The entry that is set aside of a block; none where each has a piece after it.
// Not inlined: else its marks would stand in the frame of each block that is solved within another.
#[inline(never)]
pub fn set_aside(links: &[Link], entries: &[Entry]) -> Option<Entry>
    requires tied { Tied links.now }
    requires known { Known entries.now }
    ensures { Aside (linked_by links.now) entries.now result }
{
    let mut marks = [Mark::Outside; 256];
    mark_members(entries, &mut marks);
    mark_led(links, &mut marks);
    cheapest(entries, &marks)
}

/// Takes the piece of that number out of the slice: the others move up, and their count is returned.
pub fn without(entries: &mut [Entry], number: u16) -> usize
    ensures { Without entries.old number entries.new result }
{
    // In place, as the entries are a part of the set's: a slice has no `retain`.
    let mut kept = 0;
    for k in 0..entries.len() {
        if entries[k].number != number {
            let entry = take_entry(entries, k);
            put_entry(entries, kept, entry);
            kept += 1;
        }
    }
    kept
}
