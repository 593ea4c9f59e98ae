//! The shapes file of a layout.
#![tactic(auto)]

mod count;
mod file;
mod laws;
mod one;

pub use file::{Drawing, Shapes, shapes_file, shapes_of_layers};
pub use laws::{covers_flat, one_hierarchy, writable};
pub use one::one_file;
