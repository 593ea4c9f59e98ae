//! Which rectangles touch, and what that joins, without comparing each with each: connectivity of
//! conductors by a sweep.
#![tactic(auto)]

mod conductors;
mod crowds;
mod cuts;
mod pairs;
mod pieces;

pub use conductors::{Joined, touching_links};
pub use pairs::{touching_chains, touching_pairs};
pub use pieces::{Piece, touches};
