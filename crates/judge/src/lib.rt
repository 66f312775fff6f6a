// One record of a job file judged: its fields, and the judgement of its order, its values and its zero bytes, each a
// function of its own and each proved equal to its definition in `rules`. Whatever takes in or writes records uses
// these.
#![tactic(auto)]

pub mod entry;
pub mod fields;
pub mod kinds;
pub mod values;

/// How many pieces and links stand before a record: all that its judgement looks at of what was read before it.
#[derive(Clone, Copy, Debug, PartialEq, Eq)]
pub struct Counts {
    pub pieces: usize,
    pub links: usize,
}
