//! Netlists in which each class of alike transistors of a circuit is one.
//!
//! `merge_laws` says what alike transistors are and what a merged netlist is, and that it expands
//! to the same as the given one when both are merged flat.
#![tactic(auto)]

mod fault;
mod groups;
mod keys;
mod merged;
mod parts;

pub use fault::MergeFault;
pub use groups::merge_devices;
pub use merged::{MergedAgain, merge, merge_again};
pub use parts::merged_parts;
