// The values of a record judged. They are taken as wide as a form types them, so that one judgement serves the records
// of a file and the rows of a form.
ghost use Rattle.std.specs.Prelude.{◌≡◌};
ghost use Rattle.rules.specs.Reading.{piece_fault, link_fault};
ghost use Rattle.rules.specs.Told.{fault_of};
ghost use Rattle.judge.specs.Values.{piece_with, link_with};

use rules::fault::Fault;

/// The values of a piece.
#[tactic(auto, unfolding(rules::specs::Reading::piece_fault, rules::specs::Words::when))]
pub fn piece_fault(desk: u32, duration: u32, release: u32, due: u32) -> Result<(), Fault>
    ensures { fault_of result ≡ piece_fault (piece_with desk duration release due) }
{
    if 31 < desk {
        return Err(Fault::Desk);
    }
    if duration == 0 || 960 < duration {
        return Err(Fault::Duration);
    }
    if 40000 < release || 40000 < due {
        return Err(Fault::ReleaseOrDue);
    }
    Ok(())
}

/// The values of a link with so many pieces read before it.
#[tactic(auto, unfolding(rules::specs::Reading::link_fault, rules::specs::Words::when))]
pub fn link_fault(pieces: usize, before: u32, after: u32, handover: u32) -> Result<(), Fault>
    ensures { fault_of result ≡ link_fault pieces (link_with before after handover) }
{
    if pieces <= before as usize || pieces <= after as usize {
        return Err(Fault::NoSuchPiece);
    }
    if 480 < handover {
        return Err(Fault::Handover);
    }
    Ok(())
}
