// What a file, a form or a call is refused for, by the page's list, and the number that the list gives it.
ghost use Rattle.std.specs.Prelude.{◌≡◌};
ghost use Rattle.rules.specs.Told.{number_of};

/// A fault on the page's list.
#[derive(Clone, Copy, Debug, PartialEq, Eq)]
pub enum Fault {
    /// 1: bytes, or numbers of a form, after the last whole record.
    BytesLeft,
    /// 2: a record of unknown kind.
    UnknownKind,
    /// 3: a piece after a link.
    PieceAfterLink,
    /// 4: a 257th piece or a 1,025th link.
    TooMany,
    /// 5: the desk of a piece is above 31.
    Desk,
    /// 6: a duration of 0 or above 960.
    Duration,
    /// 7: a release or due above 40,000.
    ReleaseOrDue,
    /// 8: a byte that must be zero is not.
    NotZero,
    /// 9: a link names a piece that is not there.
    NoSuchPiece,
    /// 10: a handover above 480.
    Handover,
    /// 11: a piece leads by links back to itself.
    Ring,
    /// 12: the lent buffer is shorter than 48 bytes for each piece.
    BufferTooShort,
    /// 13: the block sheet was asked for a desk above 31.
    AskedDesk,
    /// 14: the lent buffer is too short for the file to be written.
    NoRoomForFile,
}

impl From<Fault> for u8 {
    ghost from_gives = { λ fault n. n ≡ number_of fault };

    fn from(fault: Fault) -> u8 {
        match fault {
            Fault::BytesLeft => 1,
            Fault::UnknownKind => 2,
            Fault::PieceAfterLink => 3,
            Fault::TooMany => 4,
            Fault::Desk => 5,
            Fault::Duration => 6,
            Fault::ReleaseOrDue => 7,
            Fault::NotZero => 8,
            Fault::NoSuchPiece => 9,
            Fault::Handover => 10,
            Fault::Ring => 11,
            Fault::BufferTooShort => 12,
            Fault::AskedDesk => 13,
            Fault::NoRoomForFile => 14,
        }
    }
}

/// A refusal: the fault, and its place.
#[derive(Clone, Copy, Debug, PartialEq, Eq)]
pub struct Refusal {
    pub fault: Fault,
    pub place: u64,
}
