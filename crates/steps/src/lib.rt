// What a step from one decision moment to the next looks at and changes: the state of each piece. And the laws that such
// a step, made on plain tables, is the plan; no function stands here.
#![tactic(auto)]

/// What a step changes of a piece: the slots left of it, and from when on it may be ready.
// Its urgency stands in a table apart, as it never changes; a state is so of eight bytes, by which an address counts.
#[derive(Clone, Copy, Debug, Default, PartialEq, Eq)]
pub struct State {
    pub left: u32,
    pub ready: u32,
}
