//! What the comparison of two circuits takes and gives: the pins of the called pairs, pairings,
//! nodes, guesses, answers.
#![tactic(auto)]

mod answer;
mod child_pins;
mod pair_key;

pub use answer::{Answer, Evidence, Guess, GuessEnd, Node, NodeKind, Pairing, Side};
pub use child_pins::ChildPins;
pub use pair_key::PairKey;
