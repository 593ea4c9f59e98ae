//! What the comparison of two circuits comes to, with its pairing or its evidence.

/// The left circuit is the layout's, the right one the schematic's.
#[derive(Clone, Copy, Debug, PartialEq, Eq)]
pub enum Side {
    Layout,
    Schematic,
}

#[derive(Clone, Copy, Debug, PartialEq, Eq)]
pub enum NodeKind {
    Net,
    Device,
    Call,
}

/// A net, device or call of one side, by its number.
#[derive(Clone, Copy, Debug, PartialEq, Eq)]
pub struct Node {
    pub side: Side,
    pub kind: NodeKind,
    pub number: u32,
}

/// How a guess ended: refuted in a round, by the guesses below it, or not at all.
#[derive(Clone, Copy, Debug, PartialEq, Eq)]
pub enum GuessEnd {
    Refuted(u32),
    Below,
    Open,
}

/// A left node that was taken to go to a right one.
#[derive(Clone, Copy, Debug, PartialEq, Eq)]
pub struct Guess {
    pub depth: u32,
    pub kind: NodeKind,
    pub left: u32,
    pub right: u32,
    pub end: GuessEnd,
}

/// The right number of each left net, device and call.
#[derive(Debug, Drop)]
pub struct Pairing {
    pub nets: Vec<u32>,
    pub devices: Vec<u32>,
    pub calls: Vec<u32>,
}

/// Why two circuits differ: a class of unequal counts in a round, or a whole tree of guesses.
#[derive(Debug, Drop)]
pub enum Evidence {
    Round {
        round: u32,
        node: Node,
        left: u64,
        right: u64,
    },
    Tree(Vec<Guess>),
}

/// What the comparison of two circuits comes to.
#[derive(Debug, Drop)]
pub enum Answer {
    Match(Pairing),
    Differs(Evidence),
    Undecided(Vec<Guess>),
    Skipped(u32),
}
