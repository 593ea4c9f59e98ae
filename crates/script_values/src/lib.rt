//! The numbers of a script: exact, in whole thousand-millionths, and what they are in units.
#![tactic(auto)]

mod number;
mod sums;

pub use number::Number;
pub use sums::{negated, product, read_number, sum, units_of};
