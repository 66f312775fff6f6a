// The links between two pieces of one desk, out of all links. The block method asks for no others, and there may be
// many: so each block looks at these alone.
ghost use Rattle.std.specs.Prelude.{◌≤◌, length};
ghost use Rattle.rules.specs.Tables.{desks_of};
ghost use Rattle.blocks.specs.Own.{Between, OwnLinks};

use arrayvec::ArrayVec;
use rules::{Link, Piece};

/// Puts the desk's own links into the list, whatever it held before.
pub fn own_links(pieces: &[Piece], links: &[Link], desk: u8, own: &mut ArrayVec<Link, 1024>)
    requires between { Between (length pieces.now) links.now }
    requires few { (length pieces.now ≤ 256) × (length links.now ≤ 1024) }
    ensures { OwnLinks desk (desks_of pieces.now) links.now own.new.items }
{
    own.clear();
    for link in links {
        let before = pieces[usize::from(link.before)].desk;
        let after = pieces[usize::from(link.after)].desk;
        if before == desk && after == desk {
            own.push(*link);
        }
    }
}
