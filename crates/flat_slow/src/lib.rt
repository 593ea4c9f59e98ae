//! The flat, kept and local squares of a small design, square by square, straight from the
//! definitions: slow, for tests to compare with.
//!
//! An answer is `None` where a coordinate leaves 64 bits or cells stand deeper than `depth`; every
//! other answer is the definition's.
#![tactic(auto)]

mod design;
mod layers;
mod moves;
mod paths;

pub use design::{SlowCell, SlowDesign, SlowPlace, SlowShape, is_own};
pub use layers::{Formula, in_flat, is_kept, is_local};
pub use moves::origin;
pub use paths::{in_input, is_disturbed};
