//! The cards of a netlist text, their tokens, words and parameters, all in place in the text.
#![tactic(auto)]

mod cards;
mod parts;
mod tokens;

pub use cards::CardReader;
pub use parts::{Param, read_params, read_words};
pub use tokens::Token;
