//! Sets of unit squares grown or shrunk by a square.
#![tactic(auto)]

mod sizes;

pub use sizes::{shrinking, size};
