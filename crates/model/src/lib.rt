// The answers of the calls, each a Result: what it finds or does, or a refusal. What a call does is said in specs/, without code.
#![tactic(auto)]

ghost use Rattle.std.specs.Prelude.{◌≡◌};
ghost use Rattle.model.specs.Answers.{refusal_number};

// Why a call is refused, in the order of the numbers, from 1.
#[derive(Clone, Copy, Debug, PartialEq, Eq)]
pub enum Refusal {
    NotSound,
    NoSuchCapacity,
    KeyPresent,
    KeyAbsent,
    NoFreeNode,
    BoundsReversed,
    TooManyPairs,
    TooFewPlaces,
    AllTicketsOpen,
    LastVersion,
    NoSuchRange,
    NodeNotPending,
    NoPresentKey,
}

// The number of a refusal.
impl From<Refusal> for u32 {
    ghost from_gives = { λ refusal n. n ≡ refusal_number refusal };

    fn from(refusal: Refusal) -> u32 {
        refusal as u32 + 1
    }
}

// Hand over: the node is free, or on the list of the latest range.
#[derive(Clone, Copy, Debug, PartialEq, Eq)]
pub enum Handed {
    Freed,
    Held,
}

// Step: how many pairs stand in the buffers, and whether none is left.
#[derive(Clone, Copy, Debug, PartialEq, Eq)]
pub struct Stepped {
    pub pairs: u32,
    pub finished: bool,
}

// Sweep: how many nodes it freed, 0 or 1, and how many stay due.
#[derive(Clone, Copy, Debug, PartialEq, Eq)]
pub struct Swept {
    pub freed: u32,
    pub due: u32,
}

// Tally: present, held and free nodes.
#[derive(Clone, Copy, Debug, PartialEq, Eq)]
pub struct Tallied {
    pub present: u32,
    pub held: u32,
    pub free: u32,
}
