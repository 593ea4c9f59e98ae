//! Whether a pairing of two circuits is a correspondence.
#![tactic(auto)]

mod calls;
mod check;
mod devices;
mod names;
mod pins;

pub use check::{Marks, check_pairing};
