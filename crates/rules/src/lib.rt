// The types that the planner's stations share, as the rules page names them. The rules themselves are the definitions in
// specs/, one file for each section of the page, and the contracts of all other crates cite those.
#![tactic(auto)]

pub mod fault;

/// A piece of work, as a record of kind 1 gives it.
#[derive(Clone, Copy, Debug, Default, PartialEq, Eq)]
pub struct Piece {
    pub desk: u8,
    pub duration: u16,
    pub release: u32,
    pub due: u32,
}

/// A link, as a record of kind 2 gives it: `before` is finished and handed over before `after` starts.
#[derive(Clone, Copy, Debug, Default, PartialEq, Eq)]
pub struct Link {
    pub before: u16,
    pub after: u16,
    pub handover: u16,
}

/// One record of a job file.
#[derive(Clone, Copy, Debug, PartialEq, Eq)]
pub enum Record {
    Piece(Piece),
    Link(Link),
}

/// When a piece is worked on: its first slot, and one past its last.
#[derive(Clone, Copy, Debug, Default, PartialEq, Eq)]
pub struct Span {
    pub start: u32,
    pub finish: u32,
}

/// Slots in a row that one desk works on one piece.
#[derive(Clone, Copy, Debug, Default, PartialEq, Eq)]
pub struct Run {
    pub piece: u16,
    pub from: u32,
    pub until: u32,
}

/// The figures of a plan.
#[derive(Clone, Copy, Debug, PartialEq, Eq)]
pub struct PlanFigures {
    pub pieces: u32,
    pub runs: u32,
    pub end: u32,
    pub worst: i32,
}

/// The figures of the block sheet of one desk.
#[derive(Clone, Copy, Debug, PartialEq, Eq)]
pub struct BlockFigures {
    pub blocks: u32,
    pub runs: u32,
    pub worst: i32,
}
